// Octets written into a lent buffer.
ghost use Rattle.std.specs.Prelude.{◌≡◌};
ghost use Rattle.frame.specs.Writing.{joined, fitting, left_by};

use crate::faults::{Fault, Refusal};

// The length of octets in parts, if the buffer has room for all of them.
#[tactic(auto, using(crate::proofs::JoinedParts::part_within))]
fn fit(parts: &[&[u8]], buffer: &[u8]) -> Result<usize, Fault>
    ensures { result ≡ fitting (joined parts.now) buffer.now }
{
    let mut left = buffer.len();
    for part in parts {
        left = left.checked_sub(part.len()).ok_or(Refusal::Space.at(0))?;
    }
    Ok(buffer.len() - left)
}

/// Writes octets in parts, one after another at the buffer's start, and answers how many they are.
/// A buffer that is shorter than all of them is refused with Space at 0, and stays as it was.
#[tactic(auto, using(crate::proofs::JoinedParts::part_within))]
pub fn put(parts: &[&[u8]], buffer: &mut [u8]) -> Result<usize, Fault>
    ensures answer { result ≡ fitting (joined parts.now) buffer.old }
    ensures memory { buffer.new ≡ left_by result (joined parts.now) buffer.old }
{
    let length = fit(parts, buffer)?;
    // Where the next part begins.
    let mut at = 0;
    for part in parts {
        buffer[at..at + part.len()].copy_from_slice(part);
        at += part.len();
    }
    Ok(length)
}

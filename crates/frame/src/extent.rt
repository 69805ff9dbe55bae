// How many octets a frame may have.
ghost use Rattle.std.specs.Prelude.{◌≡◌, length, if◌then◌else◌, Ok, Err, nat_lt};
ghost use Rattle.frame.specs.declared.faults.Refusal.TheVariants.{Short, Surplus};
ghost use Rattle.frame.specs.Refusals.{fault};

use crate::faults::{Fault, Refusal};

// Refuses octets that are fewer than `least`.
pub(crate) fn at_least(octets: &[u8], least: usize) -> Result<(), Fault>
    ensures { result ≡ (if nat_lt (length octets.now) least then Err (fault Short (length octets.now)) else Ok tt) }
{
    if octets.len() < least {
        return Err(Refusal::Short.at(octets.len()));
    }
    Ok(())
}

// Refuses a length above `most`.
pub(crate) fn at_most(length: usize, most: usize) -> Result<(), Fault>
    ensures { result ≡ (if nat_lt most length then Err (fault Surplus most) else Ok tt) }
{
    if length > most {
        return Err(Refusal::Surplus.at(most));
    }
    Ok(())
}

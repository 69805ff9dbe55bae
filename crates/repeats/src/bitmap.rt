// A coordinator's group acknowledgment bitmap, and marking what it heard.
ghost use Rattle.std.specs.Prelude.{◌≡◌};
ghost use Rattle.repeats.specs.Laws.{AlwaysAlike, StaysAlike};
ghost use Rattle.repeats.specs.Bitmaps.{nothing_heard, with_timeslot, marked_with, Marks};

use super::timeslots::before_bits;
use plan::{Grant, Numbers};

/// A coordinator's group acknowledgment bitmap: 32 octets, with room for the bits of every plan.
/// Bit `k` is the one of weight `2^(k % 8)` in octet `k / 8`. It is gathered and sent by value.
pub type Bitmap = [u8; 32];

/// The bitmap in which nothing is acknowledged.
pub fn no_bits() -> Bitmap
    ensures { result ≡ nothing_heard }
{
    [0; 32]
}

/// The bitmap with the grant's timeslots acknowledged, and every other bit as before.
///
/// A timeslot without a bit, or past the 256th, changes nothing. Where nothing is acknowledged each grant's bits are
/// alike, and marking keeps them so.
pub fn marked(bitmap: Bitmap, numbers: Numbers, grant: Grant) -> Bitmap
    ensures answer { result ≡ marked_with numbers bitmap grant }
    ensures marks { Marks numbers bitmap grant result }
    ensures start { AlwaysAlike nothing_heard }
    ensures alike { StaysAlike numbers bitmap grant result }
{
    let mut marked = bitmap;
    let first = u16::from(grant.first);
    for t in first..first + u16::from(grant.width) {
        mark_timeslot(&mut marked, numbers, t);
    }
    marked
}

// Acknowledges timeslot t, if it has a bit.
fn mark_timeslot(bitmap: &mut [u8], numbers: Numbers, t: u16)
    ensures { bitmap.new ≡ with_timeslot numbers bitmap.old t }
{
    let before = u16::from(before_bits(numbers));
    if t <= before {
        return;
    }
    let place = usize::from(t - before - 1);
    // The contract of `get_mut` does not say what the slice ends as.
    if place / 8 < bitmap.len() {
        bitmap[place / 8] |= 1 << (place % 8);
    }
}

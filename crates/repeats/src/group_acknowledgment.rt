// A group acknowledgment: what is acknowledged, and where each grant repeats by it.
ghost use Rattle.std.specs.Prelude.{◌≡◌, Decides, ◌==◌};
ghost use Rattle.repeats.specs.Bitmaps.{bit, acknowledged, missed, Fits};
ghost use Rattle.repeats.specs.Starts.{zeros, may_repeat, wants_repeat, has_room, repeat_start};

use super::timeslots::{before_bits, before_repeats};
use frame::Direction;
use plan::{Grant, Numbers};

/// A group acknowledgment: octets of a bitmap, a whole one or a beacon's part, and the numbers that say whose each bit is.
#[derive(Clone, Copy)]
pub struct GroupAcknowledgment<'a> {
    /// The numbers of the plan that the bitmap is about.
    pub numbers: Numbers,
    /// The octets of the bitmap, lowest bit first. Past their end nothing is acknowledged.
    pub octets: &'a [u8],
}

impl GroupAcknowledgment<'_> {
    /// Whether base timeslot `t`, counted from 1, is acknowledged. One that has no bit, or whose bit lies past the
    /// octets' end, is not.
    pub fn is_set(self, t: u8) -> bool
        ensures { result ≡ acknowledged self.entry.numbers self.entry.octets.now t }
    {
        let before = before_bits(self.numbers);
        t > before && self.bit_is_set(usize::from(t - before - 1))
    }

    // Whether timeslot t has a bit, and the bit is zero.
    fn is_missed(self, t: u8) -> bool
        ensures { result ≡ missed self.entry.numbers self.entry.octets.now t }
    {
        t > before_bits(self.numbers) && !self.is_set(t)
    }

    // Whether bit k is one. Past the end it is not.
    fn bit_is_set(self, k: usize) -> bool
        ensures { result ≡ (bit self.entry.octets.now k == 1) }
    {
        self.octets
            .get(k / 8)
            .is_some_and(|octet| (octet >> (k % 8)) % 2 == 1)
    }

    /// Whether the octets are as many as the bitmap of an Online beacon has, with every bit that no timeslot has zero.
    pub fn fits(self) -> bool
        ensures { Decides result (Fits self.entry.numbers self.entry.octets.now) }
    {
        let bits = usize::from(
            self.numbers
                .timeslots
                .saturating_sub(self.numbers.retransmission),
        );
        self.octets.len() == self.numbers.bitmap_octets()
            && (bits..self.octets.len() * 8).all(|k| !self.bit_is_set(k))
    }

    // How many timeslots before t have a bit that is zero, whoever owns them.
    fn zeros_before(self, t: u8) -> u8
        ensures { result ≡ zeros self.entry.numbers self.entry.octets.now t }
    {
        // Fewer than t, so the cast keeps the count.
        (0..t).filter(|&earlier| self.is_missed(earlier)).count() as u8
    }

    // Whether a grant is to repeat: it may, and its bit is zero.
    fn wants_repeat(self, grant: Grant) -> bool
        ensures { result ≡ wants_repeat self.entry.numbers self.entry.octets.now grant }
    {
        may_repeat(self.numbers, grant) && self.is_missed(grant.first)
    }

    /// The first base timeslot of the grant's repeat, or none.
    ///
    /// There is none where the grant is not for uplink, where its first timeslot has no bit or is acknowledged, and
    /// where the repeat would pass the last timeslot for retransmission.
    #[tactic(auto, using(crate::proofs::BitsAndRepeatsLieApart::repeat_starts_low), unfolding(crate::specs::Starts::repeat_start))]
    pub fn repeat_start(self, grant: Grant) -> Option<u8>
        ensures { result ≡ repeat_start self.entry.numbers self.entry.octets.now grant }
    {
        if !self.wants_repeat(grant) {
            return None;
        }
        let zeros = self.zeros_before(grant.first);
        has_room(self.numbers, zeros, grant.width).then_some(
            before_repeats(self.numbers) + zeros + 1,
        )
    }
}

// Whether a grant may repeat at all: the one place that names the direction.
fn may_repeat(numbers: Numbers, grant: Grant) -> bool
    ensures { result ≡ may_repeat numbers grant }
{
    grant.direction(numbers) == Direction::Uplink
}

// Whether the timeslots for retransmission have room for a repeat behind others.
fn has_room(numbers: Numbers, before: u8, width: u8) -> bool
    ensures { result ≡ has_room numbers before width }
{
    u16::from(before) + u16::from(width) <= u16::from(numbers.retransmission)
}

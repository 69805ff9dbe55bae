// Which base timeslots have a bit of the group acknowledgment, and which are for retransmission.
ghost use Rattle.std.specs.Prelude.{◌≡◌};
ghost use Rattle.repeats.specs.BitAndRepeatTimeslots.{before_bits, before_repeats, for_retransmission};

use plan::Numbers;

// How many base timeslots lie in front of the first that has a bit: the R timeslots for retransmission.
#[tactic(auto, unfolding(crate::specs::BitAndRepeatTimeslots::before_bits))]
pub(crate) fn before_bits(numbers: Numbers) -> u8
    ensures { result ≡ before_bits numbers }
{
    numbers.retransmission
}

// How many base timeslots lie in front of those for retransmission: none, whatever the numbers.
#[tactic(auto, unfolding(crate::specs::BitAndRepeatTimeslots::before_repeats))]
pub(crate) fn before_repeats(_numbers: Numbers) -> u8
    ensures { result ≡ before_repeats _numbers }
{
    0
}

/// Whether base timeslot `t`, counted from 1, is one of those for retransmission.
pub fn is_for_retransmission(numbers: Numbers, t: u8) -> bool
    ensures { result ≡ for_retransmission numbers t }
{
    let before = before_repeats(numbers);
    before < t && u16::from(t) <= u16::from(before) + u16::from(numbers.retransmission)
}

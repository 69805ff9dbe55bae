// A grant of a slot plan: a run of base timeslots.
ghost use Rattle.std.specs.Prelude.{◌≡◌, ◌+◌, Decides};
ghost use Rattle.plan.specs.Rules.{GrantKeeps, Clash, Holds, LiesIn, direction_of, carried};
ghost use Rattle.plan.specs.GrantsByPlace.{ClashIn};

use super::numbers::Numbers;
use frame::Direction;

/// A run of base timeslots that one device may use.
#[derive(Clone, Copy, Debug, PartialEq, Eq)]
pub struct Grant {
    /// The device's full address, any number of 64 bits.
    pub address: u64,
    /// The device's simple address, at most 254, and not the coordinator's.
    pub simple: u8,
    /// The first base timeslot. All of the grant's lie behind those for retransmission, either all or none for uplink.
    pub first: u8,
    /// How many base timeslots there are, at least 1.
    pub width: u8,
}

impl Grant {
    /// Whether the rules of a grant by itself hold, as they stand at each field.
    pub fn keeps(self, numbers: Numbers) -> bool
        ensures { Decides result (GrantKeeps numbers self) }
    {
        self.simple <= 254
            && self.simple != numbers.coordinator
            && self.width >= 1
            && (self.lies_after(numbers.retransmission, numbers.uplink)
                || self.lies_after(numbers.uplink, numbers.timeslots))
    }

    // Whether the timeslots come after one timeslot, and up to another.
    fn lies_after(self, after: u8, last: u8) -> bool
        ensures { Decides result (LiesIn (after + 1) last self) }
    {
        self.first > after && self.end() <= u16::from(last) + 1
    }

    /// Whether the two share a full address, a simple address or a base timeslot.
    pub fn clashes(self, other: Grant) -> bool
        ensures { Decides result (Clash self other) }
    {
        let start = u16::from(self.first.max(other.first));
        self.address == other.address
            || self.simple == other.simple
            || start < self.end().min(other.end())
    }

    // Whether one of some other grants clashes with it.
    pub(crate) fn clashes_with_one(self, others: &[Grant]) -> bool
        ensures { Decides result (ClashIn others.now self) }
    {
        others.iter().any(|other| other.clashes(self))
    }

    // The timeslot after the last one.
    fn end(self) -> u16
        ensures { result ≡ self.first + self.width }
    {
        u16::from(self.first) + u16::from(self.width)
    }

    /// The direction: uplink where the grant begins among the uplink timeslots, else bidirectional.
    pub fn direction(self, numbers: Numbers) -> Direction
        ensures { result ≡ direction_of numbers self }
    {
        if self.first <= numbers.uplink {
            Direction::Uplink
        } else {
            Direction::Bidirectional
        }
    }

    /// How many octets of payload the grant carries, where a base timeslot takes `size` of them: at most 124.
    pub fn carries(self, size: u8) -> usize
        ensures { result ≡ carried size self }
    {
        (usize::from(self.width) * usize::from(size)).min(124)
    }

    /// Whether base timeslot `t` is one of the grant's.
    pub fn holds(self, t: u8) -> bool
        ensures { Decides result (Holds self t) }
    {
        self.first <= t && u16::from(t) < self.end()
    }
}

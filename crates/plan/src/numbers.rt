// The numbers of a slot plan.
ghost use Rattle.std.specs.Prelude.{◌≡◌, Decides};
ghost use Rattle.plan.specs.Rules.{NumbersKeep, bitmap_octets};

/// The numbers of a slot plan: N, U, R, n and g, and those of the coordinator and the network.
#[derive(Clone, Copy, Debug, PartialEq, Eq)]
pub struct Numbers {
    /// N, the number of base timeslots, at most 254. They are counted from 1.
    pub timeslots: u8,
    /// U, how many of the base timeslots are for uplink: those from 1 on. At most N.
    pub uplink: u8,
    /// R, how many of the uplink timeslots are for retransmission: those from 1 on, at most half of them.
    pub retransmission: u8,
    /// n, the most octets of payload that fit one base timeslot, from 1 to 124.
    pub size: u8,
    /// g, how many base timeslots a management timeslot takes, from 1 to 7.
    pub management: u8,
    /// The coordinator's simple address, at most 254.
    pub coordinator: u8,
    /// The radio channel, from 11 to 26.
    pub channel: u8,
    /// The configuration sequence number, from 0 to 255.
    pub sequence: u8,
}

impl Numbers {
    /// Whether all rules of the numbers hold, as they stand at each field.
    pub fn keep(self) -> bool
        ensures { Decides result (NumbersKeep self) }
    {
        self.timeslots <= 254
            && self.uplink <= self.timeslots
            && self.retransmission <= self.uplink / 2
            && self.size >= 1
            && self.size <= 124
            && self.management >= 1
            && self.management <= 7
            && self.coordinator <= 254
            && self.channel >= 11
            && self.channel <= 26
    }

    /// How many octets the group acknowledgment bitmap of an Online beacon has: one bit for each base timeslot that is
    /// not for retransmission, at most 32 octets.
    pub fn bitmap_octets(self) -> usize
        ensures { result ≡ bitmap_octets self }
    {
        usize::from(self.timeslots.saturating_sub(self.retransmission)).div_ceil(8)
    }
}

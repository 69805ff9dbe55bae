// The fates of cargo that was sent in the device's own timeslot.
ghost use Rattle.std.specs.Prelude.{◌≡◌};
ghost use Rattle.device.specs.Fates.{by_room};

/// What became of cargo that was sent in the device's own timeslot.
#[derive(Clone, Copy, Debug, PartialEq, Eq, Drop)]
pub enum Fate {
    /// The coordinator has it.
    Confirmed,
    /// The coordinator has it not, and it may be sent once more.
    Repeated,
    /// The coordinator has it not, and it is not sent again.
    Lost,
    /// Nothing was learned of it.
    Unknown,
}

impl Fate {
    // The fate of cargo that the coordinator has not, by the first timeslot of its repeat.
    pub(crate) fn by_room(start: Option<u8>) -> Fate
        ensures { result ≡ by_room start }
    {
        start.map_or(Fate::Lost, |_| Fate::Repeated)
    }
}

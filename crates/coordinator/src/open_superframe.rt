// An open superframe.
ghost use Rattle.std.specs.Prelude.{◌≡◌};
ghost use Rattle.coordinator.specs.OpenSuperframes.{number_in};

/// An open superframe. It can be neither copied, nor made, nor dropped: only `Coordinator::close` takes it.
pub struct OpenSuperframe {
    pub(crate) number: u32,
}

/// A superframe that was opened, and the beacon that was written for it.
pub struct Opened {
    /// How many octets the beacon has, from 5 to 38: they stand at the start of the buffer.
    pub length: usize,
    /// The superframe, which is to be closed.
    pub superframe: OpenSuperframe,
}

impl OpenSuperframe {
    /// The superframe's number: 0 for a coordinator's first one, one more for each, and 0 again after 4294967295.
    pub fn number(&self) -> u32
        ensures { result ≡ number_in self.now }
    {
        self.number
    }
}

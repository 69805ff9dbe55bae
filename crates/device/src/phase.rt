// The phases of a device.

/// How far a device has come on its way into the network.
#[derive(Clone, Copy, Debug, PartialEq, Eq, Drop)]
pub enum Phase {
    /// It takes no part.
    Idle,
    /// It answers a discovery.
    Answering,
    /// Its answer was acknowledged.
    Known,
    /// It asks for its configuration.
    Asking,
    /// It has a configuration to acknowledge.
    Thanking,
    /// It has acknowledged.
    Set,
    /// It exchanges data.
    Running,
}

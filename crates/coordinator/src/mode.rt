// What the superframes of a network are for.

/// What the superframes of a network are for, as the host sets it between superframes.
#[derive(Clone, Copy, Debug, PartialEq, Eq, Drop)]
pub enum Mode {
    /// Devices are looked for: a Discover Response is heard and acknowledged.
    Discovery,
    /// Devices are given their grants: a Configuration Status is heard, and answered with the device's grant, and
    /// an acknowledgment of that is heard.
    Configuration,
    /// Data is heard, and each beacon tells what was heard in the superframe before.
    Online,
    /// Devices forget their configurations; nothing is heard.
    Reset,
}

// The news that a device has of a superframe.

/// What a device knows of the superframe that it is in.
#[derive(Clone, Copy, PartialEq, Eq, Drop)]
pub enum News {
    /// Its beacon was missed, or none was taken yet.
    Missed,
    /// Its beacon was taken, an Online one.
    Online,
    /// Its beacon was taken, and was not Online.
    Other,
}

// What was heard in a timeslot.

/// Cargo that was heard in a timeslot.
pub struct Heard<C> {
    /// The simple address of the grant whose timeslot or repeat it was, from 0 to 254.
    pub simple: u8,
    /// The cargo that the frame carried.
    pub cargo: C,
}

// The repeat of cargo that the coordinator has not.
ghost use Rattle.std.specs.Prelude.{◌≡◌};
ghost use Rattle.device.specs.Steps.{to_repeat};

/// Cargo that is to be sent once more, from a timeslot for retransmission on.
#[derive(Drop)]
pub struct Repeat<C> {
    pub(crate) start: u8,
    pub(crate) cargo: C,
}

// Cargo to be repeated from a timeslot on, or let go.
pub(crate) fn to_repeat<C: Drop>(start: Option<u8>, cargo: C) -> Option<Repeat<C>>
    ensures { result ≡ to_repeat start cargo }
{
    start.map(|start| Repeat { start, cargo })
}

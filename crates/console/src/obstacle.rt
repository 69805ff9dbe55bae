// What keeps a line from an answer of its own.
use frame::Fault;
use script::CargoKind;
use std::alloc::AllocError;
use std::io;
use thiserror::Error;

/// Why a line is not carried out, as it is answered.
#[derive(Clone, Copy, Debug, Error)]
pub enum Obstacle {
    /// The line is no command, or offers cargo of another kind than the network carries.
    #[error("not understood")]
    NotUnderstood,
    #[error("no plan")]
    NoPlan,
    /// A bitmap whose length or padding does not fit the plan.
    #[error("misfit")]
    Misfit,
    #[error("no bitmap")]
    NoBitmap,
    #[error("no coordinator")]
    NoCoordinator,
    /// A device has that name or that address.
    #[error("taken")]
    Taken,
    #[error("no device")]
    NoDevice,
    #[error("no open superframe")]
    NoSuperframe,
    /// Nothing was written yet that the word stands for.
    #[error("no frame")]
    NoFrame,
    /// Values that are no cargo of the kind.
    #[error("no such {0}")]
    NoCargo(CargoKind),
    #[error("refused {0}")]
    Refused(Fault),
}

/// What stops a command.
#[derive(Debug, Drop, Error)]
pub enum Stop {
    /// It is answered, and the script goes on.
    #[error(transparent)]
    Obstacle(#[from] Obstacle),
    /// There is no memory.
    #[error(transparent)]
    Memory(#[from(alloc)] AllocError),
    /// An answer cannot be written.
    #[error(transparent)]
    Failure(#[from] io::Error),
}

// By hand, since a fault becomes an obstacle first.
impl From<Fault> for Stop {
    fn from(fault: Fault) -> Stop {
        Stop::Obstacle(Obstacle::Refused(fault))
    }
}

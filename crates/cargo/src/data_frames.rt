// The cargo that a received data frame carries.
ghost use Rattle.std.specs.Prelude.{◌≡◌};
ghost use Rattle.frame.specs.Views.{told};
ghost use Rattle.cargo.specs.ReceivedCargo.{Delivers, Receives, Delivered};

use super::kind_of_cargo::Cargo;
use frame::{Fault, Frame, Refusal};

// The cargo that a frame carries.
fn cargo_in<C: Cargo>(frame: Frame<'_>) -> Result<C, Fault>
    ensures { Delivers C.image (told frame.entry).message result }
{
    match frame {
        Frame::Data { payload, .. } => C::read(payload.octets),
        _ => Err(Refusal::Unwanted.at(0)),
    }
}

/// The cargo in a received data frame. A data frame that carries the image of a value gives that value back.
///
/// A fault of the frame is passed on as it is, a payload that is no image is refused with Cargo at 1, and a sound frame
/// that is no data frame with Unwanted at 0.
pub fn receive<C: Cargo>(octets: &[u8]) -> Result<C, Fault>
    ensures answer { Receives C.image octets.now result }
    ensures delivered { Delivered C.image octets.now result }
{
    cargo_in(frame::read(octets)?)
}

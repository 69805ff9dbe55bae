// Writing cargo and reading it back.
ghost use Rattle.std.specs.Prelude.{◌≡◌};
ghost use Rattle.frame.specs.Writing.{fitting, left_by};
ghost use Rattle.cargo.specs.Images.{Apart};
ghost use Rattle.cargo.specs.ReceivedCargo.{returning};

use super::kind_of_cargo::Cargo;
use frame::Fault;

/// Writes cargo into the buffer and reads it back: the same value. Two values with one image are equal.
///
/// A buffer that is shorter than the image is left as it was, and refused with Space at 0.
pub fn write_and_read<C: Cargo>(cargo: &C, buffer: &mut [u8]) -> Result<C, Fault>
    ensures answer { result ≡ returning C.image cargo.now buffer.old }
    ensures memory { buffer.new ≡ left_by (fitting (C.image cargo.now) buffer.old) (C.image cargo.now) buffer.old }
    ensures apart { Apart C.image }
{
    let written = cargo.write(buffer)?;
    C::read(&buffer[..written])
}

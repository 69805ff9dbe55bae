// What every kind of cargo has.
ghost use Rattle.std.specs.Prelude.{◌≡◌, ℕ, ◌≤◌, List, length};
ghost use Rattle.frame.specs.Writing.{fitting, left_by};
ghost use Rattle.cargo.specs.Images.{Reads};

use frame::Fault;

/// A kind of cargo. The image of a value is its meaning: at most 124 octets, and another value has another image.
pub trait Cargo: Sized {
    ghost image: { Self → List ℕ };

    /// How many octets the image has, at most 124.
    fn length(&self) -> usize
        ensures { result ≡ length (image self.now) };

    /// Writes the image at the buffer's start and answers its length. A buffer that is shorter is left as it was, and
    /// refused with Space at 0.
    fn write(&self, buffer: &mut [u8]) -> Result<usize, Fault>
        ensures answer { result ≡ fitting (image self.now) buffer.old }
        ensures memory { buffer.new ≡ left_by result (image self.now) buffer.old };

    /// The value whose image the octets are. Any other octets are refused with Cargo at 1.
    fn read(octets: &[u8]) -> Result<Self, Fault>
        ensures { Reads image octets.now result };

    ghost short: { (x : Self) → length (image x) ≤ 124 };

    ghost apart: { (x y : Self) → image x ≡ image y → x ≡ y };
}

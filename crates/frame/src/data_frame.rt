// Data frames.
ghost use Rattle.std.specs.Prelude.{◌≡◌, ◌<◌, length};
ghost use Rattle.frame.specs.Formats.{payload, reading_as};
ghost use Rattle.frame.specs.Messages.{data_frame};
ghost use Rattle.frame.specs.Views.{seen};
ghost use Rattle.frame.specs.Writing.{Written};

use crate::buffer::put;
use crate::control::Subtype;
use crate::extent::at_most;
use crate::faults::Fault;
use crate::frames::Frame;
use crate::part::Part;

// Where the payload begins, and the most octets of a data frame.
const PAYLOAD: usize = 1;

const MOST: usize = PAYLOAD + 124;

pub(crate) fn read_data(octets: &[u8]) -> Result<Frame<'_>, Fault>
    requires { 0 < length octets.now }
    ensures { seen result ≡ reading_as payload octets.now }
{
    at_most(octets.len(), MOST)?;
    Ok(Frame::Data {
        control: Part::between(octets, 0, 1),
        payload: Part::onwards(octets, PAYLOAD),
    })
}

/// Writes a data frame at the buffer's start, and answers how many octets it has.
/// A payload of more than 124 octets is refused with Surplus at 125, and a buffer that is shorter than the frame
/// with Space at 0; it then stays as it was.
#[tactic(auto, using(crate::proofs::WrittenReadsBack::written))]
pub fn write_data(payload: &[u8], buffer: &mut [u8]) -> Result<usize, Fault>
    ensures { Written (data_frame payload.now) buffer.old result buffer.new }
{
    at_most(PAYLOAD + payload.len(), MOST)?;
    put(&[&[Subtype::Data.control()], payload], buffer)
}

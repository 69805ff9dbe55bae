// Frames, and how one is read.
ghost use Rattle.std.specs.Prelude.{◌≡◌, ◌<◌, length, take};
ghost use Rattle.frame.specs.Formats.{format_in, reading, reading_as};
ghost use Rattle.frame.specs.FreeBits.{WrittenBack};
ghost use Rattle.frame.specs.Views.{seen};

use crate::acknowledgment::{Acknowledged, read_acknowledgment};
use crate::beacon::{BeaconHeader, BeaconState, read_beacon};
use crate::command::{Command, read_command};
use crate::control::{LLDN, Subtype, bits_of};
use crate::data_frame::read_data;
use crate::faults::{Fault, Refusal};
use crate::part::Part;

/// A frame that was read. Its parts are borrowed from the received octets.
#[derive(Clone, Copy)]
pub enum Frame<'a> {
    /// A beacon: its control octet, its flags, the numbers of every beacon, and what its state adds.
    Beacon {
        control: Part<'a>,
        flags: Part<'a>,
        header: BeaconHeader,
        state: BeaconState<'a>,
    },
    /// Data: the payload has 0 to 124 octets.
    Data {
        control: Part<'a>,
        payload: Part<'a>,
    },
    /// An acknowledgment.
    Acknowledgment {
        control: Part<'a>,
        acknowledged: Acknowledged,
    },
    /// A command: its parameters are all octets behind the identifier, and `command` is what they say.
    Command {
        control: Part<'a>,
        parameters: Part<'a>,
        command: Command,
    },
}

/// Takes a frame apart. Bits that are only said to be written 0 are free when read.
///
/// The refusals, in this order: Empty at 0 of no octets; Foreign at 0 of another frame type; Reserved at 0 of a control bit that
/// has to be zero; Short at the number of octets, where the frame has more; Kind at an octet that is not listed, or at a
/// beacon's flags whose bit 4 is set; Surplus at the first octet that the frame has not.
///
/// `answer` says what every list of octets reads as; `written_back`, that an accepted frame is what the writer gives for it,
/// up to its free bits; `told_by_start`, that octets past the first 126, one more than the longest frame has, change nothing.
pub fn read(octets: &[u8]) -> Result<Frame<'_>, Fault>
    ensures answer { seen result ≡ reading octets.now }
    ensures written_back { WrittenBack octets.now (seen result) }
    ensures told_by_start { seen result ≡ reading (take 126 octets.now) }
{
    let control = *octets.first().ok_or(Refusal::Empty.at(0))?;
    if bits_of(control, 0, 3) != LLDN {
        return Err(Refusal::Foreign.at(0));
    }
    if bits_of(control, 3, 2) != 0 {
        return Err(Refusal::Reserved.at(0));
    }
    read_subtype(octets)
}

// Reads a frame by its subtype.
fn read_subtype(octets: &[u8]) -> Result<Frame<'_>, Fault>
    requires { 0 < length octets.now }
    ensures { seen result ≡ reading_as (format_in octets.now) octets.now }
{
    match Subtype::of(octets[0]) {
        Subtype::Beacon => read_beacon(octets),
        Subtype::Data => read_data(octets),
        Subtype::Acknowledgment => read_acknowledgment(octets),
        Subtype::Command => read_command(octets),
    }
}

// Acknowledgments.
ghost use Rattle.std.specs.Prelude.{◌≡◌};
ghost use Rattle.std.specs.Option.{ok_or};
ghost use Rattle.frame.specs.declared.faults.Refusal.TheVariants.{Kind};
ghost use Rattle.frame.specs.Formats.{acknowledgment_format, acknowledged_of, reading_as};
ghost use Rattle.frame.specs.Messages.{type_code, acknowledgment_frame};
ghost use Rattle.frame.specs.Octets.{octet};
ghost use Rattle.frame.specs.Views.{seen};
ghost use Rattle.frame.specs.Writing.{Written};

use crate::buffer::put;
use crate::control::Subtype;
use crate::extent::{at_least, at_most};
use crate::faults::{Fault, Refusal};
use crate::frames::Frame;
use crate::part::Part;

// Where the type stands, and how many octets an acknowledgment has.
const TYPE: usize = 1;

const LENGTH: usize = TYPE + 1;

/// What an acknowledgment acknowledges.
#[derive(Clone, Copy, Debug, PartialEq, Eq)]
pub enum Acknowledged {
    /// A data frame.
    Data = 0x01,
    /// A device's Discover Response.
    DiscoverResponse = 0x0d,
    /// The coordinator's Configuration Request.
    ConfigurationRequest = 0x0f,
}

/// The type octet of an acknowledgment: 0x01, 0x0d or 0x0f.
impl From<Acknowledged> for u8 {
    ghost from_gives = { λ acknowledged code. code ≡ type_code acknowledged };

    fn from(acknowledged: Acknowledged) -> u8 {
        acknowledged as u8
    }
}

/// What a type octet stands for. An octet that is no listed type is refused with Kind.
impl TryFrom<u8> for Acknowledged {
    type Error = Refusal;

    ghost try_from_gives = { λ code r. r ≡ ok_or (acknowledged_of code) Kind };

    fn try_from(code: u8) -> Result<Acknowledged, Refusal> {
        const DATA: u8 = Acknowledged::Data as u8;
        const DISCOVER_RESPONSE: u8 = Acknowledged::DiscoverResponse as u8;
        const CONFIGURATION_REQUEST: u8 = Acknowledged::ConfigurationRequest as u8;
        match code {
            DATA => Ok(Acknowledged::Data),
            DISCOVER_RESPONSE => Ok(Acknowledged::DiscoverResponse),
            CONFIGURATION_REQUEST => Ok(Acknowledged::ConfigurationRequest),
            _ => Err(Refusal::Kind),
        }
    }
}

pub(crate) fn read_acknowledgment(octets: &[u8]) -> Result<Frame<'_>, Fault>
    ensures { seen result ≡ reading_as (acknowledgment_format (acknowledged_of (octet octets.now 1))) octets.now }
{
    at_least(octets, LENGTH)?;
    let acknowledged = Acknowledged::try_from(octets[TYPE]).map_err(|refusal| refusal.at(TYPE))?;
    at_most(octets.len(), LENGTH)?;
    Ok(Frame::Acknowledgment {
        control: Part::between(octets, 0, 1),
        acknowledged,
    })
}

/// Writes an acknowledgment at the buffer's start, and answers how many octets it has, 2.
/// A shorter buffer is refused with Space at 0, and stays as it was.
pub fn write_acknowledgment(acknowledged: Acknowledged, buffer: &mut [u8]) -> Result<usize, Fault>
    ensures { Written (acknowledgment_frame acknowledged) buffer.old result buffer.new }
{
    put(
        &[&[Subtype::Acknowledgment.control(), acknowledged.into()]],
        buffer,
    )
}

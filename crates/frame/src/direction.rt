// The direction that a device wants for its timeslots.
ghost use Rattle.std.specs.Prelude.{◌≡◌, Some};
ghost use Rattle.std.specs.Option.{ok_or};
ghost use Rattle.frame.specs.declared.faults.Refusal.TheVariants.{Kind};
ghost use Rattle.frame.specs.Directions.{direction_code, direction_of, direction_text};

use crate::faults::Refusal;
use std::fmt;

/// The direction that a device wants for its timeslots. It reads as `uplink` or `bidirectional`.
#[derive(Clone, Copy, Debug, PartialEq, Eq)]
pub enum Direction {
    /// From the device to the coordinator alone.
    Uplink = 0,
    /// Both ways.
    Bidirectional = 1,
}

/// The octet that stands for a direction, 0 or 1.
impl From<Direction> for u8 {
    ghost from_gives = { λ direction code. code ≡ direction_code direction };

    fn from(direction: Direction) -> u8 {
        direction as u8
    }
}

/// The direction that an octet stands for. An octet above 1 is refused with Kind.
impl TryFrom<u8> for Direction {
    type Error = Refusal;

    ghost try_from_gives = { λ code r. r ≡ ok_or (direction_of code) Kind };

    fn try_from(code: u8) -> Result<Direction, Refusal> {
        const UPLINK: u8 = Direction::Uplink as u8;
        const BIDIRECTIONAL: u8 = Direction::Bidirectional as u8;
        match code {
            UPLINK => Ok(Direction::Uplink),
            BIDIRECTIONAL => Ok(Direction::Bidirectional),
            _ => Err(Refusal::Kind),
        }
    }
}

impl fmt::Display for Direction {
    ghost output = { λ x. Some (direction_text x) };

    fn fmt<W: fmt::Write>(&self, f: &mut fmt::Formatter<W>) -> fmt::Result {
        f.write_str(match self {
            Direction::Uplink => "uplink",
            Direction::Bidirectional => "bidirectional",
        })
    }
}

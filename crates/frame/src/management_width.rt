// The width of a management timeslot, as beacons announce it.
ghost use Rattle.std.specs.Prelude.{◌≡◌, ◌≤◌, if◌then◌else◌, Some, None, codes, nat_le};
ghost use Rattle.std.specs.Option.{option_map};
ghost use Rattle.std.specs.Result.{result_ok};

use std::error::Error;
use std::fmt;

/// How many base timeslots a management timeslot takes: a number from 0 to 7, since a beacon has three bits for it.
#[derive(Clone, Copy)]
pub struct ManagementWidth {
    timeslots: u8,
    ghost narrow: { timeslots ≤ 7 },
}

/// A number of base timeslots above 7.
#[derive(Clone, Copy, Debug, PartialEq, Eq)]
pub struct TooWide;

/// The width of that many base timeslots; a number above 7 is refused.
impl TryFrom<u8> for ManagementWidth {
    ghost use Rattle.frame.specs.ManagementWidths.{width_of};

    type Error = TooWide;

    ghost try_from_gives = { λ timeslots r. option_map width_of (result_ok r) ≡ (if nat_le timeslots 7 then Some timeslots else None) };

    fn try_from(timeslots: u8) -> Result<ManagementWidth, TooWide> {
        if timeslots > 7 {
            return Err(TooWide);
        }
        Ok(ManagementWidth { timeslots })
    }
}

/// How many base timeslots it is, from 0 to 7.
impl From<ManagementWidth> for u8 {
    ghost use Rattle.frame.specs.ManagementWidths.{width_of};

    ghost from_gives = { λ width timeslots. (timeslots ≡ width_of width) × (timeslots ≤ 7) };

    fn from(width: ManagementWidth) -> u8 {
        width.timeslots
    }
}

impl fmt::Display for TooWide {
    ghost output = { λ _. Some (codes "a management timeslot takes at most 7 base timeslots") };

    fn fmt<W: fmt::Write>(&self, f: &mut fmt::Formatter<W>) -> fmt::Result {
        f.write_str("a management timeslot takes at most 7 base timeslots")
    }
}

impl Error for TooWide {}

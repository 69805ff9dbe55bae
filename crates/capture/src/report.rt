// What is reported of a line.
ghost use Rattle.std.specs.Prelude.{◌≡◌, ℕ, List, Some};
ghost use Rattle.std.specs.Option.{option_map};
ghost use Rattle.hexadecimal.specs.LineOf.{line_of};
ghost use Rattle.hexadecimal.specs.Reading.{Read};
ghost use Rattle.capture.specs.Reports.{reported, report_from, report_seen, report_text};

use crate::dissected::Dissected;
use frame::{Fault, Frame, read};
use hexadecimal::{HexLine, NotOctets};
use std::fmt;

/// What is reported of a line that is not skipped. It reads as `not octets`, as `refused` and the fault, or as the frame taken apart.
#[derive(Clone, Copy)]
pub enum Report<'a> {
    /// The line is something else than octets.
    NotOctets,
    /// Its octets are no frame.
    Refused(Fault),
    /// Its octets are this frame.
    Sound(Frame<'a>),
}

impl Report<'_> {
    /// The report of a line, or none where the line is skipped.
    pub fn of(line: &HexLine) -> Option<Report<'_>>
        ensures { (t : List ℕ) → Read line.now t → option_map report_seen result ≡ reported (line_of t) }
    {
        match line.told() {
            Ok(None) => None,
            Ok(Some(octets)) => Some(Report::from(read(octets))),
            Err(NotOctets) => Some(Report::NotOctets),
        }
    }
}

/// The report of octets, from what they read as.
impl<'a> From<Result<Frame<'a>, Fault>> for Report<'a> {
    ghost from_gives = { λ answer report. report ≡ report_from answer };

    fn from(answer: Result<Frame<'a>, Fault>) -> Report<'a> {
        match answer {
            Ok(frame) => Report::Sound(frame),
            Err(fault) => Report::Refused(fault),
        }
    }
}

impl fmt::Display for Report<'_> {
    ghost output = { λ x. Some (report_text x) };

    fn fmt<W: fmt::Write>(&self, f: &mut fmt::Formatter<W>) -> fmt::Result {
        match *self {
            Report::NotOctets => write!(f, "{NotOctets}"),
            Report::Refused(fault) => write!(f, "refused {fault}"),
            Report::Sound(frame) => write!(f, "{}", Dissected(frame)),
        }
    }
}

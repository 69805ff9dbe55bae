// The tally of a capture.
ghost use Rattle.std.specs.Prelude.{◌≡◌, Some};
ghost use Rattle.capture.specs.Tallies.{nothing, counted, tally_text};

use crate::report::Report;
use std::fmt;

/// How many lines were sound frames, refused ones and no octets. A count stops at the largest number that it can hold, 2 ^ 64 - 1.
/// It reads as `3 frames: 2 sound, 1 refused; 4 lines not octets`.
#[derive(Clone, Copy, Default)]
pub struct Tally {
    /// Lines that are sound frames.
    pub sound: u64,
    /// Lines of octets that are no frame.
    pub refused: u64,
    /// Lines that are something else than octets.
    pub unreadable: u64,
}

impl Tally {
    /// Nothing was counted yet.
    pub fn new() -> Tally
        ensures { result ≡ nothing }
    {
        Tally::default()
    }

    /// The tally with one report more.
    pub fn with(self, report: &Report<'_>) -> Tally
        ensures { result ≡ counted self report.now }
    {
        match report {
            Report::Sound(_) => Tally {
                sound: self.sound.saturating_add(1),
                ..self
            },
            Report::Refused(_) => Tally {
                refused: self.refused.saturating_add(1),
                ..self
            },
            Report::NotOctets => Tally {
                unreadable: self.unreadable.saturating_add(1),
                ..self
            },
        }
    }
}

impl fmt::Display for Tally {
    ghost output = { λ x. Some (tally_text x) };

    fn fmt<W: fmt::Write>(&self, f: &mut fmt::Formatter<W>) -> fmt::Result {
        let Tally {
            sound,
            refused,
            unreadable,
        } = *self;
        let frames = sound.saturating_add(refused);
        write!(
            f,
            "{frames} frames: {sound} sound, {refused} refused; {unreadable} lines not octets"
        )
    }
}

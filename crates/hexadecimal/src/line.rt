// A line of text, read a byte at a time.
ghost use Rattle.std.specs.Prelude.{◌≡◌, ℕ, false, List, [], ◌∷◌, ◌++◌, take, Some, ◌≢◌, codes};
ghost use Rattle.hexadecimal.specs.Grammar.{octets_in};
ghost use Rattle.hexadecimal.specs.LineOf.{line_of, seen, kept, most_kept};
ghost use Rattle.hexadecimal.specs.Reading.{Read, Stands, stored, is_empty};
ghost use Rattle.hexadecimal.specs.Spelling.{SpellingReadsBack};

use crate::digit::{octet_of, value_of};
use arrayvec::ArrayVec;
use std::error::Error;
use std::fmt;

// How many octets of a line are kept: one more than the longest frame has.
const KEPT: usize = 126;

// How far a line has come.
#[derive(Clone, Copy)]
enum Progress {
    // No byte yet.
    Untouched,
    // The first byte is '#'.
    Comment,
    // Whole octets and spaces.
    Whole,
    // Whole octets and spaces, and then this first digit of an octet.
    Half(u8),
    // A carriage return and nothing else.
    LoneReturn,
    // Whole octets and spaces, and then a carriage return.
    WholeReturn,
    // Whatever comes, the line is not octets.
    Broken,
}

/// One line of text, as far as it was read: octets as two hexadecimal digits each, with spaces before, between and after them.
/// Of its octets it keeps the first 126. Nothing is allocated.
// Two texts can leave a line with the same fields, as two comments do, so each contract speaks of every text that was read.
#[derive(Drop)]
pub struct HexLine {
    progress: Progress,
    octets: ArrayVec<u8, KEPT>,
}

/// A line of text that is something else than octets. It reads as `not octets`.
#[derive(Clone, Copy, Debug, PartialEq, Eq)]
pub struct NotOctets;

impl fmt::Display for NotOctets {
    ghost output = { λ _. Some (codes "not octets") };

    fn fmt<W: fmt::Write>(&self, f: &mut fmt::Formatter<W>) -> fmt::Result {
        f.write_str("not octets")
    }
}

impl Error for NotOctets {}

impl HexLine {
    /// A line of which nothing was read yet. By the same grammar, octets that are shown by their digits read back as these octets.
    pub fn new() -> HexLine
        ensures empty { Read result [] }
        ensures reads_back { SpellingReadsBack }
    {
        HexLine {
            progress: Progress::Untouched,
            octets: ArrayVec::new(),
        }
    }

    /// Takes one byte more of this line, never its line feed.
    pub fn push(&mut self, byte: u8)
        ensures { (t : List ℕ) → Read self.old t → Read self.new (t ++ byte ∷ []) }
    {
        match self.progress {
            Progress::Untouched => self.progress = at_first(byte),
            Progress::Comment => {}
            Progress::Whole => self.progress = after_octets(byte),
            Progress::Half(first) => match octet_of(first, byte) {
                Some(octet) => {
                    self.keep(octet);
                    self.progress = Progress::Whole;
                }
                None => self.progress = Progress::Broken,
            },
            Progress::LoneReturn | Progress::WholeReturn | Progress::Broken => {
                self.progress = Progress::Broken;
            }
        }
    }

    /// The first 126 octets of the line, if it ends here, or none where it is skipped: empty, or a comment that begins with `#`.
    /// A carriage return at its end does not count. `NotOctets` of any other byte, or of a digit without its fellow.
    pub fn told(&self) -> Result<Option<&[u8]>, NotOctets>
        ensures { (t : List ℕ) → Read self.now t → seen result ≡ kept (line_of t) }
    {
        match self.progress {
            Progress::Untouched | Progress::LoneReturn | Progress::Comment => Ok(None),
            Progress::Whole | Progress::WholeReturn => Ok(Some(self.octets.as_slice())),
            Progress::Half(_) | Progress::Broken => Err(NotOctets),
        }
    }

    // Keeps one octet more, if there is room.
    fn keep(&mut self, octet: u8)
        ensures stores { stored self.new ≡ take most_kept (stored self.old ++ octet ∷ []) }
        ensures same { self.new.progress ≡ self.old.progress }
    {
        if !self.octets.is_full() {
            self.octets.push(octet);
        }
    }
}

// Where the first byte of a line leads.
fn at_first(byte: u8) -> Progress
    ensures { Stands result (byte ∷ []) [] }
{
    match byte {
        b'#' => Progress::Comment,
        b'\r' => Progress::LoneReturn,
        _ => between(byte),
    }
}

// Where one byte more leads from whole octets and spaces.
fn after_octets(byte: u8) -> Progress
    ensures { (t s : List ℕ) → is_empty t ≡ false → octets_in t ≡ Some s → Stands result (t ++ byte ∷ []) s }
{
    match byte {
        b'\r' => Progress::WholeReturn,
        _ => between(byte),
    }
}

// Where a byte leads that is no carriage return, and no '#' at the front.
fn between(byte: u8) -> Progress
    requires { byte ≢ 13 }
    ensures { (t s : List ℕ) → octets_in t ≡ Some s → (t ≡ [] → byte ≢ 35) → Stands result (t ++ byte ∷ []) s }
{
    if byte == b' ' {
        Progress::Whole
    } else if value_of(byte).is_some() {
        Progress::Half(byte)
    } else {
        Progress::Broken
    }
}

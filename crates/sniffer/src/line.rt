// A line of a capture, with what it takes to say why it is not octets.
use hexadecimal::HexLine;
use std::fmt;

// How many bytes of a word are shown.
const SHOWN: usize = 32;

// A line, as far as it was read. A line of any length takes no more memory.
#[derive(Drop)]
pub struct Line {
    pub text: HexLine,
    // The word that is being read, or the first one that is not octets.
    word: Word,
    // Whether no more words are looked at: that word was found, or the line is a comment.
    is_settled: bool,
}

// The start of a word, and what is looked for in it once it is known not to be octets.
#[derive(Clone, Copy)]
pub struct Word {
    // Its first bytes: those from `length` on mean nothing.
    start: [u8; SHOWN],
    // How many bytes the whole word has.
    length: usize,
    // The first byte behind `start` that is no hexadecimal digit.
    behind: Option<Stranger>,
    // Whether the line goes on behind it: a carriage return that ends the line belongs to its end.
    goes_on: bool,
}

// A byte that is no hexadecimal digit, and how many bytes of its word stand before it.
#[derive(Clone, Copy)]
struct Stranger {
    before: usize,
    byte: u8,
}

impl Line {
    pub fn new() -> Line {
        Line {
            text: HexLine::new(),
            word: Word::new(),
            is_settled: false,
        }
    }

    // Takes one byte more.
    pub fn push(&mut self, byte: u8) {
        self.text.push(byte);
        if self.is_settled {
            return;
        }
        match byte {
            b' ' => self.end_word(),
            b'#' if matches!(self.text.told(), Ok(None)) => self.is_settled = true,
            _ => self.word.push(byte),
        }
    }

    // A space ends a word: the next one begins, unless this one is not octets.
    fn end_word(&mut self) {
        if self.text.told().is_ok() {
            self.word.begin();
        } else {
            self.word.goes_on = true;
            self.is_settled = true;
        }
    }

    // Where the line is not octets: its first word that is not, whose text says why.
    pub fn word(&self) -> &Word {
        &self.word
    }
}

impl Word {
    fn new() -> Word {
        Word {
            start: [0; SHOWN],
            length: 0,
            behind: None,
            goes_on: false,
        }
    }

    // Begins another word in the place of this one.
    fn begin(&mut self) {
        self.length = 0;
        self.behind = None;
    }

    // Of the bytes that are shown nothing is asked here: most words are octets.
    fn push(&mut self, byte: u8) {
        let before = self.length;
        if let Some(place) = self.start.get_mut(before) {
            *place = byte;
        } else if self.behind.is_none() && !byte.is_ascii_hexdigit() {
            self.behind = Some(Stranger { before, byte });
        }
        self.length = before.saturating_add(1);
    }

    // The bytes that are shown.
    fn shown(&self) -> &[u8] {
        self.start.get(..self.length).unwrap_or(&self.start)
    }

    // The first byte that is no hexadecimal digit, but for the carriage return that ends the line.
    fn stranger(&self) -> Option<u8> {
        let shown = self.shown();
        let first = shown.iter().position(|byte| !byte.is_ascii_hexdigit());
        let Stranger { before, byte } = match first {
            Some(before) => Stranger {
                before,
                byte: shown.get(before).copied()?,
            },
            None => self.behind?,
        };
        let ends_line = byte == b'\r' && !self.goes_on && before.saturating_add(1) == self.length;
        (!ends_line).then_some(byte)
    }
}

impl fmt::Display for Word {
    fn fmt<W: fmt::Write>(&self, f: &mut fmt::Formatter<W>) -> fmt::Result {
        let start = self.shown().escape_ascii();
        let more = if self.length > SHOWN { ".." } else { "" };
        write!(f, "\"{start}{more}\" is not octets: ")?;
        match self.stranger() {
            Some(byte) => write!(f, "'{}' is no hexadecimal digit", byte.escape_ascii()),
            None => f.write_str("one digit is left over"),
        }
    }
}

// The answers to a line of the script.
use crate::obstacle::Stop;
use std::fmt::Display;
use std::io;
use std::io::{BufWriter, Stderr, Stdout, Write};

/// Where a line of the script is answered. Answers go to standard output, and each begins with the number of the line and `: `.
/// Notes, which say why, go to standard error, and begin with `line`, the number and `: `.
#[derive(Drop)]
pub struct Answers<'a> {
    number: u64,
    out: &'a mut BufWriter<Stdout>,
    notes: &'a mut BufWriter<Stderr>,
}

impl<'a> Answers<'a> {
    /// The answers to the line with a number, from 1 on.
    pub fn to(
        number: u64,
        out: &'a mut BufWriter<Stdout>,
        notes: &'a mut BufWriter<Stderr>,
    ) -> Answers<'a> {
        Answers { number, out, notes }
    }

    // Writes an output line.
    pub(crate) fn write(&mut self, text: impl Display + Drop) -> io::Result<()> {
        let number = self.number;
        writeln!(self.out, "{number}: {text}")
    }

    // Writes an output line of a command.
    pub(crate) fn line(&mut self, text: impl Display + Drop) -> Result<(), Stop> {
        Ok(self.write(text)?)
    }

    // Writes the number of a grant, or a word where there is none.
    pub(crate) fn grant_or(&mut self, grant: Option<usize>, none: &str) -> Result<(), Stop> {
        match grant {
            Some(i) => self.line(format_args!("grant {i}")),
            None => self.line(none),
        }
    }

    // Writes a note, at once. Where standard error takes none, it is lost, and the script goes on.
    pub(crate) fn note(&mut self, text: impl Display + Drop) {
        let number = self.number;
        let _ = writeln!(self.notes, "line {number}: {text}");
        let _ = self.notes.flush();
    }
}

//! Prints a radio capture, from a file or from standard input, with each frame taken apart.
#![tactic(auto)]

mod line;

use capture::{Report, Tally};
use command_line::{Program, Source};
use line::Line;
use std::io;
use std::io::{BufRead, BufReader, BufWriter, Read, Stderr, Stdout, Write};
use std::process::ExitCode;

const PROGRAM: Program = Program {
    name: "sniffer",
    version: "1.0",
    about: "Prints a radio capture, one frame a line in hexadecimal, with each frame taken apart",
    file: "FILE",
    file_help: "The capture; without it standard input is read",
};

// A capture as far as it was read: the present line, its number from 1, the tally of the lines before it, where all is printed, and where it is told why a line is not octets.
#[derive(Drop)]
struct Capture {
    line: Line,
    number: u64,
    tally: Tally,
    out: BufWriter<Stdout>,
    notes: BufWriter<Stderr>,
}

impl Capture {
    fn new(out: BufWriter<Stdout>, notes: BufWriter<Stderr>) -> Capture {
        Capture {
            line: Line::new(),
            number: 1,
            tally: Tally::new(),
            out,
            notes,
        }
    }

    // Ends the present line, and begins the next one.
    fn end_line(&mut self) -> io::Result<()> {
        self.report()?;
        self.line = Line::new();
        self.number = self.number.saturating_add(1);
        Ok(())
    }

    // Takes the whole input. Its `bytes()` would say so in one loop, but are read slower by a third. Only the end of a line can
    // fail, so that no byte of a line makes a result.
    fn take_all<R: Read + Drop>(&mut self, mut input: BufReader<R>) -> io::Result<()> {
        for _ in 0..u64::MAX {
            let bytes = input.fill_buf()?;
            let count = bytes.len();
            if count == 0 {
                break;
            }
            for &byte in bytes {
                if byte == b'\n' {
                    self.end_line()?;
                } else {
                    self.line.push(byte);
                }
            }
            input.consume(count);
        }
        Ok(())
    }

    // Reports the present line, unless it is skipped.
    fn report(&mut self) -> io::Result<()> {
        let number = self.number;
        if let Some(report) = Report::of(&self.line.text) {
            self.tally = self.tally.with(&report);
            writeln!(self.out, "{number}: {report}")?;
            if let Report::NotOctets = report {
                let word = self.line.word();
                // Where standard error takes no note, it is lost, and the capture goes on.
                let _ = writeln!(self.notes, "line {number}: {word}");
            }
        }
        Ok(())
    }

    // Reports the last line, and then the tally.
    fn finish(mut self) -> io::Result<()> {
        self.report()?;
        let tally = self.tally;
        writeln!(self.out, "{tally}")?;
        let _ = self.notes.flush();
        self.out.flush()
    }
}

fn main(rt: HostRuntime) -> ExitCode {
    let ran = match PROGRAM.start(&rt) {
        Ok(Source::StandardInput) => run(&rt, rt.stdin()),
        Ok(Source::File(file)) => run(&rt, file),
        Err(status) => return status,
    };
    PROGRAM.end(&rt, ran)
}

// Prints a capture.
fn run<R: Read + Drop>(rt: &HostRuntime, input: R) -> io::Result<()> {
    let heap = rt.alloc();
    let out = BufWriter::new(heap, rt.stdout())?;
    let notes = BufWriter::new(heap, rt.stderr())?;
    let mut capture = Capture::new(out, notes);
    capture.take_all(BufReader::new(heap, input)?)?;
    capture.finish()
}

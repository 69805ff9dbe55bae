//! The console: runs a script from a file or from standard input, one command a line, and prints the answers.
#![tactic(auto)]

use command_line::{Program, Source};
use console::{Answers, Console};
use std::alloc::Global;
use std::io;
use std::io::{BufRead, BufReader, BufWriter, Read, Stderr, Stdout, Write};
use std::process::ExitCode;

const PROGRAM: Program = Program {
    name: "lldn",
    version: "1.0",
    about: "Runs a script of the console, one command a line, and prints the answers",
    file: "SCRIPT",
    file_help: "The script; without it standard input is read",
};

fn main(rt: HostRuntime) -> ExitCode {
    let ran = match PROGRAM.start(&rt) {
        Ok(Source::StandardInput) => run(&rt, rt.stdin()),
        Ok(Source::File(file)) => run(&rt, file),
        Err(status) => return status,
    };
    PROGRAM.end(&rt, ran)
}

// Runs a script.
fn run<R: Read + Drop>(rt: &HostRuntime, script: R) -> io::Result<()> {
    let heap = rt.alloc();
    let script = BufReader::new(heap, script)?;
    let mut out = BufWriter::new(heap, rt.stdout())?;
    let mut notes = BufWriter::new(heap, rt.stderr())?;
    let mut console = Console::new(heap);
    let ran = run_lines(&mut console, heap, script, &mut out, &mut notes);
    console.finish();
    ran?;
    out.flush()
}

// Runs each line of a script. Lines are read into one buffer, as they need not be text and may be long.
fn run_lines<R: Read + Drop>(
    console: &mut Console,
    heap: Global,
    mut script: BufReader<R>,
    out: &mut BufWriter<Stdout>,
    notes: &mut BufWriter<Stderr>,
) -> io::Result<()> {
    let mut line = Vec::new(heap);
    for number in 1..u64::MAX {
        line.clear();
        if script.read_until(b'\n', &mut line)? == 0 {
            break;
        }
        console.run(&line, &mut Answers::to(number, out, notes))?;
    }
    Ok(())
}

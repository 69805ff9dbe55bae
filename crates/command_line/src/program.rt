// What a command line says to read, and how a program ends.
ghost use Rattle.std.specs.Prelude.{◌≡◌};
ghost use Rattle.std.specs.Process.{exit_status};
ghost use Rattle.command_line.specs.Endings.{status_of};

use clap::{Arg, Command};
use std::env::FillError;
use std::io::ErrorKind;
use std::process::ExitCode;
use std::rt::{Env, Files};
use std::{env, fs, io};

/// A program that reads one text, from a file or from standard input, as `--help` and `--version` tell it.
#[derive(Clone, Copy)]
pub struct Program {
    pub name: &'static str,
    pub version: &'static str,
    /// What it does, in one line.
    pub about: &'static str,
    /// The name of its one argument, a file.
    pub file: &'static str,
    /// What the file holds, and that standard input is read without one.
    pub file_help: &'static str,
}

/// What a program is to read.
#[derive(Drop)]
pub enum Source<F> {
    StandardInput,
    File(F),
}

// What a command line asks for.
#[derive(Drop)]
enum Asked {
    // To read the file with this path, or standard input.
    Read(Option<String>),
    // Nothing more: help, the version, or what is wrong was printed.
    End(ExitCode),
}

impl Program {
    /// Reads the command line, and opens the file that it names. With an Err the program is to end at once, with this status:
    /// 0 after `--help` and `--version`, and 1 where the command line is something else or the file cannot be opened, which is told on standard error.
    pub fn start<R: Files + Env + Print + Eprint + AllocGlobal>(
        &self,
        rt: &R,
    ) -> Result<Source<R::File>, ExitCode> {
        match self.asked(rt) {
            Ok(Asked::Read(None)) => Ok(Source::StandardInput),
            Ok(Asked::Read(Some(path))) => self.open(rt, path.as_str()),
            Ok(Asked::End(status)) => Err(status),
            Err(error) => Err(self.end(rt, Err(error))),
        }
    }

    /// The status of a program that ran: 0, also where it ended for a pipe that was closed;
    /// 1 where it ended for another failure to read or to write, which is told on standard error.
    pub fn end<R: Eprint>(&self, rt: &R, ran: io::Result<()>) -> ExitCode
        ensures { exit_status result ≡ status_of ran }
    {
        match ran {
            Ok(()) => ExitCode::SUCCESS,
            Err(error) if error.kind() == ErrorKind::BrokenPipe => ExitCode::SUCCESS,
            Err(error) => {
                let name = self.name;
                // Where standard error cannot be written either, the status alone tells it.
                let _ = rt.eprintln(format_args!("{name}: {error}"));
                ExitCode::FAILURE
            }
        }
    }

    // Opens a file.
    fn open<R: Files + Eprint>(&self, rt: &R, path: &str) -> Result<Source<R::File>, ExitCode> {
        match fs::open(rt, path) {
            Ok(file) => Ok(Source::File(file)),
            Err(error) => {
                let name = self.name;
                let _ = rt.eprintln(format_args!("{name}: {path}: {error}"));
                Err(ExitCode::FAILURE)
            }
        }
    }

    // What the command line asks for.
    fn asked<R: Env + Print + Eprint + AllocGlobal>(&self, rt: &R) -> io::Result<Asked> {
        // Where no argument follows the program's own name, nothing is judged: its own name need not be text.
        if let Err(FillError::NotPresent) = rt.arg(1, &mut [0; 1]) {
            return Ok(Asked::Read(None));
        }
        let heap = rt.alloc();
        let words = match env::args(rt) {
            Ok(words) => words,
            Err(error) if error.kind() == ErrorKind::InvalidData => {
                let name = self.name;
                rt.eprintln(format_args!("{name}: the command line is no text in UTF-8"))?;
                return Ok(Asked::End(ExitCode::FAILURE));
            }
            Err(error) => return Err(error),
        };
        let words: Vec<String> = words.collect(heap)?;
        let file = Arg::new(heap, self.file).help(self.file_help);
        let command = Command::new(heap, self.name)
            .version(self.version)
            .about(self.about)
            .arg(file)?;
        let matches = match command.try_get_matches_from(words.as_slice()) {
            Ok(matches) => matches,
            Err(error) => {
                error.print(rt)?;
                let wrong = error.use_stderr();
                return Ok(Asked::End(ExitCode::from(u8::from(wrong))));
            }
        };
        let path = matches.get_str(self.file);
        let path = path.map(|path| String::from_str(heap, path)).transpose()?;
        Ok(Asked::Read(path))
    }
}

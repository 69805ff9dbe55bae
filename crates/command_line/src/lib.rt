//! The command line of a program that reads one text, from a file or from standard input.
#![tactic(auto)]

mod program;

pub use program::{Program, Source};

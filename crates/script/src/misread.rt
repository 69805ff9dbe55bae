// Why a line of the script is not understood.
use std::fmt;
use std::num::ParseIntError;

/// Why a line is not understood, as it is told: the word and what is wrong with it.
/// Words are shown in quotes, with characters that do not print escaped.
#[derive(Debug, Drop)]
pub enum Misread<'a> {
    /// Its octets are no text in UTF-8.
    NoText,
    /// Its first word is no command.
    Unknown {
        command: &'a str,
    },
    /// It ends before this parameter.
    Missing {
        parameter: &'static str,
    },
    /// A word cannot stand for its parameter.
    Wrong {
        parameter: &'static str,
        word: &'a str,
        reason: WrongWord,
    },
    /// A word stands after the last parameter.
    Surplus {
        word: &'a str,
    },
}

/// Why a word cannot stand for its parameter.
#[derive(Debug, Drop)]
pub enum WrongWord {
    /// It is a number with a sign, where none may stand.
    Signed,
    /// It is no number, or none that fits.
    Number(ParseIntError),
    /// It is a number above the greatest that is allowed.
    Above(u32),
    /// It is none of the forms that are allowed, which this names.
    NoneOf(&'static str),
}

impl fmt::Display for Misread<'_> {
    fn fmt<W: fmt::Write>(&self, f: &mut fmt::Formatter<W>) -> fmt::Result {
        match self {
            Misread::NoText => f.write_str("its octets are no text in UTF-8"),
            Misread::Unknown { command } => write!(f, "{command:?} is no command"),
            Misread::Missing { parameter } => write!(f, "{parameter} is missing"),
            Misread::Wrong {
                parameter,
                word,
                reason,
            } => write!(f, "{word:?} cannot be {parameter}: {reason}"),
            Misread::Surplus { word } => write!(f, "{word:?} is surplus"),
        }
    }
}

impl fmt::Display for WrongWord {
    fn fmt<W: fmt::Write>(&self, f: &mut fmt::Formatter<W>) -> fmt::Result {
        match self {
            WrongWord::Signed => f.write_str("no sign may stand there"),
            WrongWord::Number(error) => write!(f, "{error}"),
            WrongWord::Above(greatest) => write!(f, "at most {greatest}"),
            WrongWord::NoneOf(forms) => write!(f, "not {forms}"),
        }
    }
}

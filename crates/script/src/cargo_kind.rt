// A kind of cargo, as a word of the script.
use std::fmt;

/// A kind of cargo that a network of the console carries.
#[derive(Clone, Copy, Debug, PartialEq, Eq)]
pub enum CargoKind {
    Reading,
    Panel,
}

impl CargoKind {
    /// The kind that a word names.
    pub(crate) fn named(word: &str) -> Option<CargoKind> {
        match word {
            "reading" => Some(CargoKind::Reading),
            "panel" => Some(CargoKind::Panel),
            _ => None,
        }
    }
}

impl fmt::Display for CargoKind {
    fn fmt<W: fmt::Write>(&self, f: &mut fmt::Formatter<W>) -> fmt::Result {
        f.write_str(match self {
            CargoKind::Reading => "reading",
            CargoKind::Panel => "panel",
        })
    }
}

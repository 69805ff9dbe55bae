// Cargo that a line of the script gives.
ghost use Rattle.std.specs.Prelude.{◌≡◌};
ghost use Rattle.script.specs.Orders.{kind_given};

use crate::cargo_kind::CargoKind;
use crate::line_words::{LineWords, number_in, signed_in, wrong};
use crate::misread::{Misread, WrongWord};
use cargo::{Panel, Reading};

/// Cargo that a line gives, or none where its values are no cargo of the kind.
#[derive(Clone, Copy)]
pub enum GivenCargo {
    Reading(Option<Reading>),
    Panel(Option<Panel>),
}

impl GivenCargo {
    /// The kind that it is, or was meant to be.
    pub fn kind(self) -> CargoKind
        ensures { result ≡ kind_given self }
    {
        match self {
            GivenCargo::Reading(_) => CargoKind::Reading,
            GivenCargo::Panel(_) => CargoKind::Panel,
        }
    }

    // Cargo of the kind that comes first.
    pub(crate) fn after_kind<'a>(words: &mut LineWords<'a>) -> Result<GivenCargo, Misread<'a>> {
        match words.kind()? {
            CargoKind::Reading => reading(words.word("VALUE")?, words.word("QUALITY")?),
            CargoKind::Panel => panel(words.word("INPUTS")?),
        }
    }

    // Value and quality of a reading, or the inputs of a panel.
    pub(crate) fn by_count<'a>(words: &mut LineWords<'a>) -> Result<GivenCargo, Misread<'a>> {
        let first = words.word("VALUE or INPUTS")?;
        match words.next() {
            Some(quality) => reading(first, quality),
            None => panel(first),
        }
    }
}

// A reading by the words of its value and its quality.
fn reading<'a>(value: &'a str, quality: &'a str) -> Result<GivenCargo, Misread<'a>> {
    let value = signed_in("VALUE", value)?;
    let quality = number_in("QUALITY", quality)?;
    Ok(GivenCargo::Reading(Reading::new(value, quality)))
}

// The panel that a word of 0s and 1s switches.
fn panel<'a>(word: &'a str) -> Result<GivenCargo, Misread<'a>> {
    if !word.bytes().all(|byte| matches!(byte, b'0' | b'1')) {
        return Err(wrong("INPUTS", word, WrongWord::NoneOf("a word of 0s and 1s")));
    }
    // Fixed memory, as no heap is at hand where words are read: a panel has at most 64 inputs.
    let mut inputs = [false; 64];
    for (input, byte) in inputs.iter_mut().zip(word.bytes()) {
        *input = byte == b'1';
    }
    let inputs = inputs.get(..word.len());
    Ok(GivenCargo::Panel(inputs.and_then(Panel::new)))
}

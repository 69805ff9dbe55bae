// The words of a line, and the values that they stand for.
use crate::cargo_kind::CargoKind;
use crate::given_octets::GivenOctets;
use crate::misread::{Misread, WrongWord};
use std::num::ParseIntError;
use std::str::{FromStr, SplitWhitespace};

// The words of a line that were not taken yet, up to a comment. Each method takes words for the parameter that it is told.
#[derive(Drop)]
pub(crate) struct LineWords<'a> {
    rest: SplitWhitespace<'a>,
}

impl<'a> Iterator for LineWords<'a> {
    type Item = &'a str;

    ghost remaining = { λ words. ⟦<SplitWhitespace<'a> as Iterator>⟧.remaining words.rest };

    fn next(&mut self) -> Option<&'a str> {
        let word = self.rest.next()?;
        // As octets: starts_with is slower on long lines.
        if word.as_bytes().first() == Some(&b'#') {
            self.rest = "".split_whitespace();
            return None;
        }
        Some(word)
    }
}

impl<'a> LineWords<'a> {
    pub(crate) fn of(text: &'a str) -> LineWords<'a> {
        LineWords {
            rest: text.split_whitespace(),
        }
    }

    // The next word. In its caller, as `number_in`.
    #[inline(always)]
    pub(crate) fn word(&mut self, parameter: &'static str) -> Result<&'a str, Misread<'a>> {
        self.next().ok_or(Misread::Missing { parameter })
    }

    // A decimal number without a sign.
    pub(crate) fn number<T: FromStr<Err = ParseIntError>>(
        &mut self,
        parameter: &'static str,
    ) -> Result<T, Misread<'a>> {
        number_in(parameter, self.word(parameter)?)
    }

    // A full address, decimal or, after `0x`, hexadecimal.
    pub(crate) fn address(&mut self) -> Result<u64, Misread<'a>> {
        let word = self.word("ADDRESS")?;
        match word.strip_prefix("0x") {
            Some(digits) if !is_signed(digits) => u64::from_str_radix(digits, 16).map_err(
                |error| wrong("ADDRESS", word, WrongWord::Number(error)),
            ),
            Some(_) => Err(wrong("ADDRESS", word, WrongWord::Signed)),
            None => number_in("ADDRESS", word),
        }
    }

    // The name of a device.
    pub(crate) fn name(&mut self) -> Result<&'a str, Misread<'a>> {
        let word = self.word("NAME")?;
        named(word, word)
    }

    // A kind of cargo.
    pub(crate) fn kind(&mut self) -> Result<CargoKind, Misread<'a>> {
        let word = self.word("a kind of cargo")?;
        match CargoKind::named(word) {
            Some(kind) => Ok(kind),
            None => Err(wrong(
                "a kind of cargo",
                word,
                WrongWord::NoneOf("reading or panel"),
            )),
        }
    }

    // Octets: all words up to the end, or `-` for none.
    pub(crate) fn octets(&mut self) -> Result<GivenOctets, Misread<'a>> {
        let first = self.word("OCTETS")?;
        let mut octets = octets_in("OCTETS", first)?;
        if first != "-" {
            for word in self {
                push(&mut octets, "OCTETS", word)?;
            }
        }
        Ok(octets)
    }
}

// Octets in one word, or `-` for none.
pub(crate) fn octets_in<'a>(
    parameter: &'static str,
    word: &'a str,
) -> Result<GivenOctets, Misread<'a>> {
    let mut octets = GivenOctets::none();
    if word != "-" {
        push(&mut octets, parameter, word)?;
    }
    Ok(octets)
}

// Adds the octets of a word.
fn push<'a>(
    octets: &mut GivenOctets,
    parameter: &'static str,
    word: &'a str,
) -> Result<(), Misread<'a>> {
    if octets.push(word) {
        return Ok(());
    }
    let forms = "two hexadecimal digits for each octet";
    Err(wrong(parameter, word, WrongWord::NoneOf(forms)))
}

// The name of a device, which stands in a word: it starts with a letter.
pub(crate) fn named<'a>(word: &'a str, name: &'a str) -> Result<&'a str, Misread<'a>> {
    if name.starts_with(|c: char| c.is_ascii_alphabetic()) {
        return Ok(name);
    }
    let forms = "a word that starts with a letter, a to z or A to Z";
    Err(wrong("NAME", word, WrongWord::NoneOf(forms)))
}

// As octets, as in `next`: it is asked of each number.
fn is_signed(word: &str) -> bool {
    matches!(word.as_bytes().first(), Some(b'+' | b'-'))
}

// A decimal number without a sign. In its caller: what is wrong with a word is large, and is moved otherwise for each that is right.
#[inline(always)]
pub(crate) fn number_in<'a, T: FromStr<Err = ParseIntError>>(
    parameter: &'static str,
    word: &'a str,
) -> Result<T, Misread<'a>> {
    if is_signed(word) {
        return Err(wrong(parameter, word, WrongWord::Signed));
    }
    word.parse()
        .map_err(|error| wrong(parameter, word, WrongWord::Number(error)))
}

// A decimal number with or without a minus sign.
pub(crate) fn signed_in<'a>(parameter: &'static str, word: &'a str) -> Result<i32, Misread<'a>> {
    if word.starts_with('+') {
        return Err(wrong(parameter, word, WrongWord::Signed));
    }
    word.parse()
        .map_err(|error| wrong(parameter, word, WrongWord::Number(error)))
}

// A word that cannot stand for a parameter.
pub(crate) fn wrong<'a>(parameter: &'static str, word: &'a str, reason: WrongWord) -> Misread<'a> {
    Misread::Wrong {
        parameter,
        word,
        reason,
    }
}

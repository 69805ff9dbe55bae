// A reading: a measured value with its quality, its image in octets and its text.
ghost use Rattle.std.specs.Prelude.{◌≡◌, ◌^◌, ◌<◌, ◌≤◌, if◌then◌else◌, Some, None, length, nat_le, MatchOption, ◌≢◌};
ghost use Rattle.std.specs.Int.Signed.{mag};
ghost use Rattle.std.specs.Option.{option_map};

use super::kind_of_cargo::Cargo;
use frame::{Fault, Refusal, put};
use std::fmt;

// How many octets the image of a reading has.
const SIZE: usize = 5;

/// A measured value of 32 bits with its sign, and its quality.
#[derive(Clone, Copy)]
pub struct Reading {
    value: i32,
    quality: u8,
    ghost signed: { mag value < 2 ^ 31 },
    ghost listed: { quality ≤ 3 },
}

impl Reading {
    ghost use Rattle.cargo.specs.Readings.{told, reading_image};

    /// A reading, or none where the quality is above 3.
    pub fn new(value: i32, quality: u8) -> Option<Reading>
        ensures { option_map told result ≡ (if nat_le quality 3 then Some (value, quality) else None) }
    {
        // Not `then`: a closure that makes a reading needs a contract of its own.
        if quality > 3 {
            return None;
        }
        Some(Reading { value, quality })
    }

    /// The value that was measured.
    pub fn value(self) -> i32
        ensures { result ≡ (told self).0 }
    {
        self.value
    }

    /// How good the measurement is, from 0 to 3.
    pub fn quality(self) -> u8
        ensures value { result ≡ (told self).1 }
        ensures bound { result ≤ 3 }
    {
        self.quality
    }

    // The value and the octet behind it, where there are just five octets.
    fn parts(octets: &[u8]) -> Option<(i32, u8)>
        ensures { MatchOption result (length octets.now ≢ 5) (λ p. reading_image p.0 p.1 ≡ octets.now) }
    {
        let &[a, b, c, d, quality] = octets else {
            return None;
        };
        Some((i32::from_le_bytes([a, b, c, d]), quality))
    }
}

/// The image is the value in four octets, lowest first, in two's complement, and the quality in the fifth.
impl Cargo for Reading {
    ghost use Rattle.cargo.specs.Readings.{image_of};
    ghost use Rattle.cargo.specs.EachReadingHasItsOwnImage.{reading_short, same_reading};

    ghost image = { image_of };

    ghost short = { reading_short };

    ghost apart = { same_reading };

    fn length(&self) -> usize {
        SIZE
    }

    fn write(&self, buffer: &mut [u8]) -> Result<usize, Fault> {
        put(&[&self.value.to_le_bytes(), &[self.quality]], buffer)
    }

    fn read(octets: &[u8]) -> Result<Reading, Fault> {
        Reading::parts(octets)
            .and_then(|(value, quality)| Reading::new(value, quality))
            .ok_or(Refusal::Cargo.at(1))
    }
}

/// A reading reads as `reading -1 0`: its value in decimal, and its quality.
impl fmt::Display for Reading {
    ghost use Rattle.cargo.specs.Readings.{text_of};

    ghost output = { λ x. Some (text_of x) };

    fn fmt<W: fmt::Write>(&self, f: &mut fmt::Formatter<W>) -> fmt::Result {
        write!(f, "reading {} {}", self.value, self.quality)
    }
}

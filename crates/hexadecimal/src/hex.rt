// Octets as text.
ghost use Rattle.std.specs.Prelude.{Some};
ghost use Rattle.std.specs.Fmt.{WritesOnOk};
ghost use Rattle.hexadecimal.specs.Grammar.{octet_digits, text_of};

use crate::digit::digits;
use std::fmt;
use std::str::from_utf8;

/// Octets to show: two lower-case hexadecimal digits each, without spaces, and none as `-`.
#[derive(Clone, Copy)]
pub struct Hex<'a>(pub &'a [u8]);

impl fmt::Display for Hex<'_> {
    ghost output = { λ x. Some (text_of x.0.now) };

    fn fmt<W: fmt::Write>(&self, f: &mut fmt::Formatter<W>) -> fmt::Result {
        if self.0.is_empty() {
            return f.write_str("-");
        }
        for &octet in self.0 {
            write_octet(f, octet)?;
        }
        Ok(())
    }
}

// Writes the two digits of an octet, at once: `{:02x}` takes twice the instructions.
fn write_octet<W: fmt::Write>(f: &mut fmt::Formatter<W>, octet: u8) -> fmt::Result
    ensures { WritesOnOk W.write_str_gives f.old result (octet_digits octet) f.new }
{
    f.write_str(from_utf8(&digits(octet)).unwrap())
}

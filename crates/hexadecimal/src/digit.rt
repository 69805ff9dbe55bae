// Hexadecimal digits, as bytes of text.
ghost use Rattle.std.specs.Prelude.{◌≡◌, ◌<◌};
ghost use Rattle.hexadecimal.specs.Grammar.{digit_code, digit_value, octet_digits, octet_of};

// The number that a digit stands for, in upper or lower case.
pub(crate) fn value_of(byte: u8) -> Option<u8>
    ensures { result ≡ digit_value byte }
{
    char::from(byte).to_digit(16).map(|value| value as u8)
}

// The octet that two digits stand for.
pub(crate) fn octet_of(first: u8, second: u8) -> Option<u8>
    ensures { result ≡ octet_of first second }
{
    let high = value_of(first)?;
    let low = value_of(second)?;
    Some(16 * high + low)
}

// The lower-case digit for a number below sixteen.
fn digit_for(value: u8) -> u8
    requires { value < 16 }
    ensures { result ≡ digit_code value }
{
    if value < 10 {
        b'0' + value
    } else {
        b'a' + (value - 10)
    }
}

// The two lower-case digits of an octet.
pub(crate) fn digits(octet: u8) -> [u8; 2]
    ensures { result ≡ octet_digits octet }
{
    [digit_for(octet / 16), digit_for(octet % 16)]
}

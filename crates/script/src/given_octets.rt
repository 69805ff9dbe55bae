// Octets that a line of the script gives.
use hexadecimal::HexLine;

/// Octets that a line of the script gives, which may be none: no more than the first 126, one above the longest frame.
#[derive(Drop)]
pub struct GivenOctets(HexLine);

impl GivenOctets {
    /// No octets.
    pub(crate) fn none() -> GivenOctets {
        GivenOctets(HexLine::new())
    }

    /// Adds the octets of a word, behind a space; answers whether all is octets so far.
    pub(crate) fn push(&mut self, word: &str) -> bool {
        self.0.push(b' ');
        for byte in word.bytes() {
            self.0.push(byte);
        }
        self.0.told().is_ok()
    }

    /// The octets.
    pub fn as_slice(&self) -> &[u8] {
        self.0.told().ok().flatten().unwrap_or(&[])
    }
}

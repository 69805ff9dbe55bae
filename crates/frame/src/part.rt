// Parts of a frame.
ghost use Rattle.std.specs.Prelude.{◌≡◌, ◌≤◌, length};
ghost use Rattle.frame.specs.Formats.{cut, rest};
ghost use Rattle.frame.specs.Views.{piece};

/// A part of a frame, borrowed from the received octets.
#[derive(Clone, Copy)]
pub struct Part<'a> {
    /// The index in the frame of the part's first octet, from 0.
    pub place: usize,
    /// The part's octets.
    pub octets: &'a [u8],
}

impl<'a> Part<'a> {
    // The part from one index up to another.
    pub(crate) fn between(octets: &'a [u8], from: usize, to: usize) -> Part<'a>
        requires { (from ≤ to) × (to ≤ length octets.now) }
        ensures { piece result ≡ cut from to octets.now }
    {
        Part {
            place: from,
            octets: &octets[from..to],
        }
    }

    // The part from an index to the end.
    pub(crate) fn onwards(octets: &'a [u8], from: usize) -> Part<'a>
        requires { from ≤ length octets.now }
        ensures { piece result ≡ rest from octets.now }
    {
        Part {
            place: from,
            octets: &octets[from..],
        }
    }
}

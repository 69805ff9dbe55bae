// The memory that a host lends an end for a frame.
ghost use Rattle.std.specs.Prelude.{◌≡◌, take};

/// How many octets a host lends an end for a frame: as many as the longest frame takes, in fixed memory, without the heap.
pub const SPACE: usize = 127;

/// The octets that a call wrote at the start of a buffer, or the whole buffer where `count` is above its length.
// By `get`, so that no proof follows each call's count to the buffer's end.
pub fn first(octets: &[u8], count: usize) -> &[u8]
    ensures { result.now ≡ take count octets.now }
{
    octets.get(..count).unwrap_or(octets)
}

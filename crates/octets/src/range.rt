// The test of a range, and of a room.
ghost use Rattle.std.specs.Prelude.{◌≡◌, ◌+◌, nat_le};
ghost use Rattle.octets.specs.Range.{within};

// Whether a number is from a least to a most.
pub fn is_within(low: u64, high: u64, n: u64) -> bool
    ensures { result ≡ within low high n }
{
    if low <= n { n <= high } else { false }
}

// Whether so many bytes from an offset on end within a room. No sum is made, so none can be too large.
pub fn has_room(room: usize, at: usize, size: usize) -> bool
    ensures { result ≡ nat_le (at + size) room }
{
    if size <= room {
        at <= room - size
    } else {
        false
    }
}

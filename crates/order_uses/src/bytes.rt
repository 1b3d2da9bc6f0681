// Pieces at their places in a run of bytes.
ghost use Rattle.std.specs.Prelude.{◌≡◌, ◌+◌, ◌≤◌, length};
ghost use Rattle.std.specs.Int.{w64};
ghost use Rattle.order_limits.specs.Part.{part};
ghost use Rattle.order_limits.specs.Read.{number_in};
ghost use Rattle.order_uses.specs.Reading.{AreBytes};

/// The piece of a length at a place.
#[tactic(auto, unfolding(order_limits::specs::Part::part))]
pub(crate) fn part_at(bytes: &[u8], at: usize, len: usize) -> &[u8]
    requires { at + len ≤ length bytes.now }
    ensures bytes { result.now ≡ part at len bytes.now }
    ensures len { length result.now ≡ len }
{
    &bytes[at..at + len]
}

/// The number of the eight bytes at a place.
pub(crate) fn number_at(bytes: &[u8], at: usize) -> u64
    requires { at + 8 ≤ length bytes.now }
    ensures { result ≡ number_in w64 at bytes.now }
{
    let b = part_at(bytes, at, 8);
    u64::from_be_bytes([b[0], b[1], b[2], b[3], b[4], b[5], b[6], b[7]])
}

/// These bytes, in an array.
pub(crate) fn order_bytes(bytes: &[u8]) -> [u8; 123]
    requires { length bytes.now ≡ 123 }
    ensures { result ≡ bytes.now }
{
    let mut order = [0u8; 123];
    order.copy_from_slice(bytes);
    order
}

/// The law that the bytes of a slice are below 256, which contracts aren't told of a list.
pub(crate) fn are_bytes(bytes: &[u8])
    ensures { AreBytes bytes.now }
{
    let _ = bytes;
}

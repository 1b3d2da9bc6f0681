// Pieces at their places in a run of bytes.
ghost use Rattle.std.specs.Prelude.{◌≡◌, ◌+◌, ◌≤◌, ◌++◌, length, take, drop};
ghost use Rattle.order_limits.specs.Part.{part};

/// Writes a piece at a place.
pub(crate) fn write_at(out: &mut [u8], at: usize, piece: &[u8])
    requires { at + length piece.now ≤ length out.old }
    ensures front { take (at + length piece.now) out.new ≡ take at out.old ++ piece.now }
    ensures rest { drop (at + length piece.now) out.new ≡ drop (at + length piece.now) out.old }
{
    out[at..at + piece.len()].copy_from_slice(piece);
}

/// The piece of a length at a place.
#[tactic(auto, unfolding(crate::specs::Part::part))]
pub(crate) fn bytes_at(bytes: &[u8], at: usize, len: usize) -> &[u8]
    requires { at + len ≤ length bytes.now }
    ensures bytes { result.now ≡ part at len bytes.now }
    ensures len { length result.now ≡ len }
{
    &bytes[at..at + len]
}

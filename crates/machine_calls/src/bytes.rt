// A law of bytes.
ghost use Rattle.std.specs.Prelude.{ℕ, ◌<◌, slice_index_or};

/// The law that the bytes of a slice are below 256, which contracts aren't told of a list.
pub fn are_bytes(bytes: &[u8])
    ensures { (i : ℕ) → slice_index_or bytes.now i 0 < 256 }
{
    let _ = bytes;
}

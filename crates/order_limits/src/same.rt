// Keys and tags, compared in a time that tells nothing of them.
ghost use Rattle.std.specs.Prelude.{◌≡◌, nat_eq};
ghost use Rattle.std.specs.Cmp.Lexicographic.{pointwise};

/// Whether bytes that were given are a key or a tag. Each byte is looked at, wherever they differ, so that the time
/// that it takes tells nothing of the place; of another length they aren't.
pub fn is_same(given: &[u8], secret: &[u8]) -> bool
    ensures { result ≡ pointwise nat_eq given.now secret.now }
{
    if given.len() != secret.len() {
        return false;
    }
    // Bits are gathered and not answers, and tested once at the end: nothing branches on a byte.
    let differing = given
        .iter()
        .zip(secret)
        .fold(0, |bits, (byte, other)| bits | (*byte ^ *other));
    differing == 0
}

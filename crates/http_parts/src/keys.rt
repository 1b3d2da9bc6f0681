// Keys in headers.
ghost use Rattle.std.specs.Prelude.{◌≡◌};
ghost use Rattle.http_parts.specs.Keys.{is_key};

use order_limits::is_same;

/// Whether the value is the key in 64 hex digits, of either case (RFC 4648, 8).
pub fn holds_key(value: &[u8], key: &[u8; 32]) -> bool
    ensures { result ≡ is_key key.now value.now }
{
    let mut found = [0u8; 32];
    match hex::decode_to_slice(value, &mut found) {
        Ok(()) => is_same(&found, key),
        Err(_) => false,
    }
}

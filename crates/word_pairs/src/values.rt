// The values on a command line.
ghost use Rattle.std.specs.Prelude.{◌≡◌, ◌≤◌, IfSome, option_map};
ghost use Rattle.word_pairs.specs.Values.{number_or, number_within, secret_of, secret_or_none};

use hex::FromHex;
use sat_base::number;

/// A secret or a key of 32 bytes, as 64 hexadecimal digits, in either case.
pub fn secret_in(text: Option<&str>) -> Option<[u8; 32]>
    ensures { result ≡ secret_of (option_map (λ v. v.now) text.entry) }
{
    <[u8; 32] as FromHex>::from_hex(text?).ok()
}

/// The same where it is there. No text is no secret.
pub fn secret_or_none_in(text: Option<&str>) -> Option<Option<[u8; 32]>>
    ensures { result ≡ secret_or_none (option_map (λ v. v.now) text.entry) }
{
    if text.is_none() {
        return Some(None);
    }
    match secret_in(text) {
        Some(secret) => Some(Some(secret)),
        None => None,
    }
}

/// A number from the least to the greatest one, in 1 to 20 decimal digits.
pub fn number_in(low: u64, high: u64, text: Option<&str>) -> Option<u64>
    ensures value { result ≡ number_within low high (option_map (λ v. v.now) text.entry) }
    ensures within { IfSome result (λ n. (low ≤ n) × (n ≤ high)) }
{
    match number(text?.as_bytes(), high) {
        Some(n) if low <= n => Some(n),
        _ => None,
    }
}

/// The same, or the usual one where there is no text.
pub fn number_or_in(usual: u64, low: u64, high: u64, text: Option<&str>) -> Option<u64>
    requires { (low ≤ usual) × (usual ≤ high) }
    ensures value { result ≡ number_or usual low high (option_map (λ v. v.now) text.entry) }
    ensures within { IfSome result (λ n. (low ≤ n) × (n ≤ high)) }
{
    if text.is_none() {
        return Some(usual);
    }
    number_in(low, high, text)
}

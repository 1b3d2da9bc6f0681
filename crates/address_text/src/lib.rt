//! IPv4 addresses as texts: four numbers joined by dots, as in `10.0.1.1`.
//!
//! [`address`] gives the number of an address exactly where a text is one; [`addresses_are_dotted`] says what that is.
#![tactic(auto)]

ghost use Rattle.std.specs.Prelude.{◌≡◌, ◌<◌, ◌≤◌, ◌+◌, ◌*◌, ◌↔◌, ℕ, List, IfSome, Some, option_map};
ghost use Rattle.address_text.specs.Address.{IsAddress, address_of, last_of, next_of, octet_of};

use sat_base::{cut, number};

/// The number of an address: four numbers from 0 to 255 in plain decimal, joined by dots, of which the first is the highest
/// byte (RFC 3986, 3.2.2, `IPv4address`). None where the text is no address: so no zero leads, and no number is missing.
pub fn address(text: &[u8]) -> Option<u32>
    ensures { result ≡ address_of text.now }
{
    let (first, rest) = next(0, text, 0)?;
    let (second, rest) = next(first, rest, 255)?;
    let (third, rest) = next(second, rest, 65535)?;
    last(third, rest, 16777215)
}

// A number from 0 to 255 in plain decimal.
fn octet(digits: &[u8]) -> Option<u32>
    ensures value { result ≡ octet_of digits.now }
    ensures small { IfSome result (λ n. n ≤ 255) }
{
    if digits.len() != 1 && digits.first() == Some(&b'0') {
        return None;
    }
    match number(digits, 255) {
        Some(n) => Some(n as u32),
        None => None,
    }
}

// The number with one more octet.
fn last(high: u32, text: &[u8], most: u32) -> Option<u32>
    requires high { high ≤ most }
    requires most { most * 256 + 255 < 4294967296 }
    ensures value { result ≡ last_of high text.now }
    ensures small { IfSome result (λ n. n ≤ most * 256 + 255) }
{
    match octet(text) {
        Some(n) => Some(high * 256 + n),
        None => None,
    }
}

// The number with the octet before the next dot, and what stands behind the dot.
fn next(high: u32, text: &[u8], most: u32) -> Option<(u32, &[u8])>
    requires high { high ≤ most }
    requires most { most * 256 + 255 < 4294967296 }
    ensures value { option_map (λ p. (p.0, p.1.now)) result ≡ next_of (high, text.now) }
    ensures small { IfSome result (λ p. p.0 ≤ most * 256 + 255) }
{
    let (digits, rest) = cut(text, b'.')?;
    match last(high, digits, most) {
        Some(n) => Some((n, rest)),
        None => None,
    }
}

/// The law of addresses: a text has a number exactly where it is four numbers from 0 to 255 in plain decimal, joined by
/// dots, and then the number is that of these four bytes.
pub fn addresses_are_dotted()
    ensures { (text : List ℕ) (n : ℕ) → (address_of text ≡ Some n) ↔ IsAddress text n }
{}

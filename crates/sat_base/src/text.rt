// Numbers of 1 to 20 decimal digits, as they stand in lines, paths, headers and on the command line; and the two parts of
// a text that a mark divides.
ghost use Rattle.std.specs.Prelude.{◌≡◌, ◌↔◌, ◌≤◌, IsTrue, IfSome, option_map};
ghost use Rattle.std.specs.Str.Parse.{digits_value};
ghost use Rattle.sat_base.specs.Text.{IsNumeral, up_to, number_up_to, cut_of};

/// Whether the bytes are 1 to 20 decimal digits, among which zeros may lead.
pub fn is_numeral(bytes: &[u8]) -> bool
    ensures { IsTrue result ↔ IsNumeral bytes.now }
{
    !bytes.is_empty() && bytes.len() <= 20 && bytes.iter().all(|b| b.is_ascii_digit())
}

/// The number that 1 to 20 decimal digits write, where it is at most `most`, and None where it is greater.
pub fn value_up_to(digits: &[u8], most: u64) -> Option<u64>
    requires { IsNumeral digits.now }
    ensures { result ≡ up_to most (digits_value 10 digits.now) }
{
    let mut value = 0u128;
    for digit in digits {
        value = value * 10 + (*digit - b'0') as u128;
        if value > most as u128 {
            return None;
        }
    }
    Some(value as u64)
}

/// The number that 1 to 20 decimal digits write, where it is at most `most`. None where the bytes are something else, or
/// write a greater number.
pub fn number(digits: &[u8], most: u64) -> Option<u64>
    ensures value { result ≡ number_up_to most digits.now }
    ensures small { IfSome result (λ n. n ≤ most) }
{
    if !is_numeral(digits) {
        return None;
    }
    value_up_to(digits, most)
}

/// What stands before the first mark, and behind it.
pub fn cut(text: &[u8], mark: u8) -> Option<(&[u8], &[u8])>
    ensures { option_map (λ p. (p.0.now, p.1.now)) result ≡ cut_of mark text.now }
{
    for (i, b) in text.iter().enumerate() {
        if *b == mark {
            return Some((&text[..i], &text[i + 1..]));
        }
    }
    None
}

//! Months as texts, `YYYY-MM`: on the command line, in the paths and fields of requests, and in answers.
//!
//! [`month_of_text`] gives the month exactly where a text is four digits of a year from 1970 to 4147, a dash, and two digits
//! from 01 to 12; [`text_of_month`] writes it. [`months_are_spelled`] has some texts, byte for byte.
#![tactic(auto)]

ghost use Rattle.std.specs.Prelude.{◌≡◌, ◌≤◌, ℕ, codes, IfOk, IfSome, Some, option_map, string_bytes};
ghost use Rattle.sat_base.specs.Limits.{IsMonthWithin};
ghost use Rattle.month_text.specs.MonthText.{digits_of, month_in, month_text};

use sat_base::{Month, cut, number};
use std::alloc::{AllocError, Global};

// The number that so many decimal digits write, if it is within its bounds.
fn digits(text: &[u8], count: usize, low: u64, high: u64) -> Option<u64>
    requires few { (1 ≤ count) × (count ≤ 20) }
    ensures value { result ≡ digits_of count low high text.now }
    ensures within { IfSome result (λ n. (low ≤ n) × (n ≤ high)) }
{
    if text.len() != count {
        return None;
    }
    match number(text, high) {
        Some(n) if low <= n => Some(n),
        _ => None,
    }
}

/// The month that a text writes, from January 1970 to December 4147.
pub fn month_of_text(text: &[u8]) -> Option<Month>
    ensures month { option_map (λ m. m.0) result ≡ month_in text.now }
    ensures within { IfSome result (λ m. IsMonthWithin m.0) }
{
    let (year, place) = cut(text, b'-')?;
    let year = digits(year, 4, 1970, 4147)?;
    let place = digits(place, 2, 1, 12)?;
    Some(Month(year as u32 * 12 + place as u32 - 1))
}

/// The text of a month. A year before 1000 has fewer than four digits.
pub fn text_of_month(alloc: Global, month: Month) -> Result<String, AllocError>
    ensures { IfOk result (λ text. string_bytes text ≡ month_text month.0) }
{
    let year = month.0 / 12;
    let place = month.0 % 12 + 1;
    if place < 10 {
        format!(in alloc; "{year}-0{place}")
    } else {
        format!(in alloc; "{year}-{place}")
    }
}

/// The law of months and their texts: the text of a month is read as that month; and some texts, byte for byte.
pub fn months_are_spelled()
    ensures reads_back { (m : ℕ) → IsMonthWithin m → month_in (month_text m) ≡ Some m }
    ensures march { (month_text 24314 ≡ codes "2026-03") × (month_in (codes "2026-03") ≡ Some 24314) }
    ensures first { (month_text 23640 ≡ codes "1970-01") × (month_in (codes "1970-01") ≡ Some 23640) }
    ensures last { (month_text 49775 ≡ codes "4147-12") × (month_in (codes "4147-12") ≡ Some 49775) }
{}

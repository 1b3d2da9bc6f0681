// Months, schemes and digits.
use sat_base::{Moment, Month, Scheme, SchemeErr, cut, month_of, number};

// The last second of a month and the first of the next, between the first and the last moment. The
// months are those of Python's `datetime`.
static BORDERS: [(u64, u32); 20] = [
    (0, 23640),
    (2_678_399, 23640), // January 1970
    (2_678_400, 23641),
    (31_535_999, 23651), // December 1970
    (31_536_000, 23652),
    (951_868_799, 24001), // 29 February 2000
    (951_868_800, 24002),
    (1_677_628_799, 24277), // 28 February 2023
    (1_677_628_800, 24278),
    (1_709_251_199, 24289), // 29 February 2024
    (1_709_251_200, 24290),
    (1_767_225_599, 24311), // December 2025
    (1_767_225_600, 24312),
    (1_772_323_199, 24313), // February 2026
    (1_772_323_200, 24314),
    (1_775_001_599, 24314), // March 2026
    (1_775_001_600, 24315),
    (4_107_542_399, 25201), // 28 February 2100
    (4_107_542_400, 25202),
    (68_719_476_735, 49771), // 20 August 4147, the last moment
];

fn is_in(at: u64, month: u32) -> bool {
    month_of(Moment::of(at)) == Ok(Month(month))
}

#[test]
fn months_at_their_borders(rt: HostRuntime) {
    for (at, month) in &BORDERS {
        assert!(rt; is_in(*at, *month), "at {at}");
    }
}

fn refusal(k: u64, m: u64, o: u64, n: u64, share: u64) -> Option<SchemeErr> {
    Scheme::check(k, m, o, n, share).err()
}

#[test]
fn refused_schemes(rt: HostRuntime) {
    let made = [
        refusal(0, 35, 80, 110, 256),
        refusal(29, 28, 28, 110, 256),
        refusal(29, 35, 35, 34, 256),
        refusal(29, 35, 80, 129, 0),
        refusal(29, 35, 80, 110, 1025),
    ];
    let want = [
        Some(SchemeErr::K),
        Some(SchemeErr::M),
        Some(SchemeErr::O),
        Some(SchemeErr::N),
        Some(SchemeErr::Share),
    ];
    assert_eq!(rt; made, want);
}

// The longest segment, the stripes of 7425 bytes, and a piece of 7424 bytes.
fn sizes() -> Result<[u64; 3], SchemeErr> {
    let scheme = Scheme::check(29, 35, 80, 110, 256)?;
    Ok([
        scheme.max_len(),
        scheme.stripes(7425),
        scheme.piece_len(7424),
    ])
}

#[test]
fn sizes_of_a_scheme(rt: HostRuntime) {
    assert_eq!(rt; sizes(), Ok([4_194_304 * 29, 2, 256]));
}

// Texts, the most that is taken, and the number.
static NUMERALS: [(&str, u64, Option<u64>); 9] = [
    ("007", 7, Some(7)),
    ("008", 7, None),
    ("", 7, None),
    ("+7", 7, None),
    ("7 ", 7, None),
    ("18446744073709551615", u64::MAX, Some(u64::MAX)),
    ("18446744073709551616", u64::MAX, None),
    ("00000000000000000001", u64::MAX, Some(1)),
    ("000000000000000000001", u64::MAX, None),
];

#[test]
fn numbers_of_1_to_20_digits(rt: HostRuntime) {
    for (text, most, answer) in &NUMERALS {
        assert!(rt; number(text.as_bytes(), *most) == *answer, "{text}");
    }
}

// Whether the text is cut at its first slash into these parts.
fn is_cut(text: &[u8], before: &[u8], behind: &[u8]) -> bool {
    cut(text, b'/') == Some((before, behind))
}

#[test]
fn cuts_at_the_first_mark(rt: HostRuntime) {
    assert!(rt; is_cut(b"a/b/c", b"a", b"b/c") && cut(b"abc", b'/').is_none());
}

// Pairs of a name and a value.
ghost use Rattle.std.specs.Prelude.{◌≡◌, ◌<◌, ◌≤◌, ◌+◌, ◌^◌, length, drop, option_map};
ghost use Rattle.word_pairs.specs.Pairs.{is_form, is_named, is_pair, is_value, texts, value_of};

use sat_base::Line;

/// The value of a name, among the pairs from a place on.
pub fn value<'a>(line: &'a Line, name: &str, from: usize) -> Option<&'a str>
    requires { from ≤ length line.now }
    ensures { option_map (λ v. v.now) result ≡ value_of name.now (drop from line.now) }
{
    let mut i = from;
    while line.len() - i >= 2 {
        if line.word(i) == name {
            return Some(line.word(i + 1));
        }
        i += 2;
    }
    None
}

fn is_a_value(word: &str) -> bool
    ensures { result ≡ is_value word.now }
{
    match word.as_bytes() {
        [] => false,
        [first, ..] => *first != b'-',
    }
}

fn is_among(names: &[&str], name: &str) -> bool
    ensures { result ≡ is_named names.now name.now }
{
    names.iter().any(|n| *n == name)
}

// Whether at a place stand a name out of the table and a value, and the name doesn't come again.
fn has_pair(line: &Line, names: &[&str], at: usize) -> bool
    requires within { at + 2 ≤ length line.now }
    requires fits { at + 2 < 2 ^ 64 }
    ensures { result ≡ is_pair (texts names.now) (drop at line.now) }
{
    let name = line.word(at);
    if !is_among(names, name) {
        return false;
    }
    if !is_a_value(line.word(at + 1)) {
        return false;
    }
    value(line, name, at + 2).is_none()
}

/// Whether the words behind the command are pairs of a name out of its table and a value, no name twice.
pub fn has_form(line: &Line, names: &[&str]) -> bool
    requires { 1 ≤ length line.now }
    ensures { result ≡ is_form (texts names.now) (drop 1 line.now) }
{
    let mut i = 1;
    while i < line.len() {
        if line.len() - i < 2 {
            return false;
        }
        if !has_pair(line, names, i) {
            return false;
        }
        i += 2;
    }
    true
}

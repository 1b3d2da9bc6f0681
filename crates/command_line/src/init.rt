// The words of `init`.
ghost use Rattle.std.specs.Prelude.{◌≡◌, ◌≤◌, IfSome, length, drop, option_map};
ghost use Rattle.command_line.specs.Command.{caps_of, choices_of, init_of, numbers_of, rates_of, scheme_of};
ghost use Rattle.command_line.specs.Words.{choices_said, init_said};
ghost use Rattle.command_line.specs.Command.{cap_of, pieces_of, rate_of};

use crate::bounds;
use sat_base::{Caps, Line, Rates, Scheme, limits};
use word_pairs::{has_form, number_in, number_or_in, secret_or_none_in, value};

/// What `init` is asked for.
#[derive(Clone, Copy, Debug)]
pub(crate) struct InitWords<'a> {
    pub store: &'a str,
    pub choices: Choices,
    pub scheme: Scheme,
    pub rates: Rates,
    pub caps: Caps,
}

/// What stands beside the scheme, the rates and the caps.
#[derive(Clone, Copy, Debug)]
pub(crate) struct Choices {
    pub secret: Option<[u8; 32]>,
    pub vet: u16,
    pub fresh: u8,
}

const NAMES: [&str; 19] = [
    "--store",
    "--secret",
    "--k",
    "--m",
    "--o",
    "--n",
    "--share",
    "--vet",
    "--fresh",
    "--get",
    "--audit",
    "--repair",
    "--storage",
    "--cap-nodes",
    "--cap-customers",
    "--cap-segments",
    "--cap-settled",
    "--cap-tallies",
    "--cap-statements",
];

// A number of pieces.
fn pieces_in(line: &Line, name: &str) -> Option<u64>
    requires { 1 ≤ length line.now }
    ensures { result ≡ pieces_of name.now (drop 1 line.now) }
{
    number_in(1, limits::PLACES as u64, value(line, name, 1))
}

#[tactic(auto, unfolding(crate::specs::Command::scheme_of))]
fn scheme_in(line: &Line) -> Option<Scheme>
    requires { 1 ≤ length line.now }
    ensures { option_map numbers_of result ≡ scheme_of (drop 1 line.now) }
{
    let k = pieces_in(line, "--k")?;
    let m = pieces_in(line, "--m")?;
    let o = pieces_in(line, "--o")?;
    let n = pieces_in(line, "--n")?;
    let usual = u64::from(bounds::USUAL_SHARE);
    let share = number_or_in(
        usual,
        1,
        u64::from(limits::SHARE),
        value(line, "--share", 1),
    )?;
    Scheme::check(k, m, o, n, share).ok()
}

fn rate_in(line: &Line, name: &str, usual: u64) -> Option<u64>
    requires line { 1 ≤ length line.now }
    requires usual { usual ≤ 1000000000 }
    ensures { result ≡ rate_of usual name.now (drop 1 line.now) }
{
    number_or_in(usual, 0, limits::RATE, value(line, name, 1))
}

#[tactic(auto, unfolding(crate::specs::Command::rates_of))]
fn rates_in(line: &Line) -> Option<Rates>
    requires { 1 ≤ length line.now }
    ensures { result ≡ rates_of (drop 1 line.now) }
{
    let get = rate_in(line, "--get", bounds::USUAL_GET)?;
    let audit = rate_in(line, "--audit", bounds::USUAL_AUDIT)?;
    let repair = rate_in(line, "--repair", bounds::USUAL_REPAIR)?;
    let storage = rate_in(line, "--storage", bounds::USUAL_STORAGE)?;
    Some(Rates {
        get,
        audit,
        repair,
        storage,
    })
}

fn cap_in(line: &Line, name: &str, most: u32) -> Option<u32>
    requires line { 1 ≤ length line.now }
    requires most { 1 ≤ most }
    ensures { result ≡ cap_of most name.now (drop 1 line.now) }
{
    let cap = number_or_in(u64::from(most), 1, u64::from(most), value(line, name, 1))?;
    Some(cap as u32)
}

#[tactic(auto, unfolding(crate::specs::Command::caps_of))]
fn caps_in(line: &Line) -> Option<Caps>
    requires { 1 ≤ length line.now }
    ensures { result ≡ caps_of (drop 1 line.now) }
{
    let nodes = cap_in(line, "--cap-nodes", limits::NODES)?;
    let customers = cap_in(line, "--cap-customers", limits::CUSTOMERS)?;
    let segments = cap_in(line, "--cap-segments", limits::SEGMENTS)?;
    let settled = cap_in(line, "--cap-settled", limits::SETTLED)?;
    let tallies = cap_in(line, "--cap-tallies", limits::TALLIES)?;
    let statements = cap_in(line, "--cap-statements", limits::STATEMENTS)?;
    Some(Caps {
        nodes,
        customers,
        segments,
        settled,
        tallies,
        statements,
    })
}

#[tactic(auto, unfolding(crate::specs::Command::choices_of))]
fn choices_in(line: &Line) -> Option<Choices>
    requires { 1 ≤ length line.now }
    ensures { option_map choices_said result ≡ choices_of (drop 1 line.now) }
{
    let secret = secret_or_none_in(value(line, "--secret", 1))?;
    let usual = u64::from(bounds::USUAL_VET);
    let vet = number_or_in(usual, 1, u64::from(limits::VET), value(line, "--vet", 1))?;
    let usual = u64::from(bounds::USUAL_FRESH);
    let fresh = number_or_in(
        usual,
        0,
        u64::from(bounds::PERCENT),
        value(line, "--fresh", 1),
    )?;
    Some(Choices {
        secret,
        vet: vet as u16,
        fresh: fresh as u8,
    })
}

/// What the words behind `init` ask for.
#[tactic(auto, unfolding(crate::specs::Command::init_of))]
pub(crate) fn init_in<'a>(line: &'a Line) -> Option<InitWords<'a>>
    requires { 1 ≤ length line.now }
    ensures { option_map init_said result ≡ init_of (drop 1 line.now) }
{
    if !has_form(line, &NAMES) {
        return None;
    }
    let store = value(line, "--store", 1)?;
    let choices = choices_in(line)?;
    let scheme = scheme_in(line)?;
    let rates = rates_in(line)?;
    let caps = caps_in(line)?;
    Some(InitWords {
        store,
        choices,
        scheme,
        rates,
        caps,
    })
}

// The words of `serve`.
ghost use Rattle.std.specs.Prelude.{◌≡◌, ◌≤◌, IfSome, length, drop, option_map};
ghost use Rattle.command_line.specs.Command.{serve_of};
ghost use Rattle.command_line.specs.Words.{AreWithin, serve_said};

use crate::bounds;
use sat_base::{Line, limits};
use word_pairs::{has_form, number_in, number_or_in, value};

/// What `serve` is asked for.
#[derive(Clone, Copy, Debug)]
pub(crate) struct ServeWords<'a> {
    pub store: &'a str,
    pub port: u16,
    pub lanes: u16,
    pub term: u64,
    pub tick: u32,
}

/// What the words behind `serve` ask for.
#[tactic(auto, unfolding(crate::specs::Command::serve_of))]
pub(crate) fn serve_in<'a>(line: &'a Line) -> Option<ServeWords<'a>>
    requires { 1 ≤ length line.now }
    ensures said { option_map serve_said result ≡ serve_of (drop 1 line.now) }
    ensures within { IfSome result AreWithin }
{
    if !has_form(line, &["--store", "--port", "--lanes", "--term", "--tick"]) {
        return None;
    }
    let store = value(line, "--store", 1)?;
    let port = number_in(1, u64::from(bounds::PORT), value(line, "--port", 1))?;
    let lanes = number_or_in(1, 1, u64::from(bounds::LANES), value(line, "--lanes", 1))?;
    let term = number_or_in(limits::TERM, 1, limits::TERM, value(line, "--term", 1))?;
    let usual = u64::from(bounds::USUAL_TICK);
    let tick = number_or_in(usual, 1, u64::from(bounds::TICK), value(line, "--tick", 1))?;
    Some(ServeWords {
        store,
        port: port as u16,
        lanes: lanes as u16,
        term,
        tick: tick as u32,
    })
}

// The commands.
ghost use Rattle.std.specs.Prelude.{◌≡◌, ◌↔◌, ◌≤◌, true, None, Some, Err, IfOk, IfSome, MatchResult, length, drop, option_map};
ghost use Rattle.command_line.specs.Command.{IsWithin, asked, command_of, drill_of, init_of, judge_of, named_of, names_store, serve_of, settle_of, sheet_of};
ghost use Rattle.command_line.specs.Command.Asked.{init, serve, sheet};
ghost use Rattle.command_line.specs.Words.{AreWithin, init_said, serve_said, sheet_said};
ghost use Rattle.sat_base.specs.Limits.{IsMonthWithin};

use crate::bounds;
use crate::init::{InitWords, init_in};
use crate::names::{Name, name_of};
use crate::serve::{ServeWords, serve_in};
use crate::sheet::{SheetWords, sheet_in};
use sat_base::{Bytes, Caps, Items, Line, Month, Rates, Scheme, limits};
use std::alloc::Global;
use word_pairs::{has_form, number_in, number_or_in, secret_in, value};

/// What the words ask for. A store is the name of its file.
#[derive(Debug, Drop)]
pub enum Command {
    /// Settle the orders of the input, at most `cap` of them, under a secret of 32 bytes.
    Settle {
        secret: [u8; 32],
        cap: u32,
    },
    /// Judge the answers of the input, which are shares of `share` bytes, by a stripe that `k` of them rebuild.
    Judge {
        k: u8,
        share: u16,
    },
    /// Make a store. Without a secret one is drawn.
    Init {
        store: Bytes,
        secret: Option<[u8; 32]>,
        scheme: Scheme,
        vet: u16,
        fresh: u8,
        rates: Rates,
        caps: Caps,
    },
    /// Serve a store on the ports from `port` on, one a lane, for at most `term` entries, with a tick every `tick` seconds.
    Serve {
        store: Bytes,
        port: u16,
        lanes: u16,
        term: u64,
        tick: u32,
    },
    /// Print what a store's nodes are paid for a month.
    Sheet {
        store: Bytes,
        month: Month,
    },
    /// Make so many calls out of a number, over a store in memory.
    Drill {
        start: u64,
        calls: u64,
    },
}

/// Why words are no command.
#[derive(Clone, Copy, Debug, PartialEq, Eq)]
pub enum LineErr {
    /// They are outside the grammar.
    Usage,
    /// Memory runs out for the name of a store.
    NoMemory,
}

// What the words behind `settle` ask for.
#[tactic(auto, unfolding(crate::specs::Command::settle_of))]
fn settle_in(line: &Line) -> Option<Command>
    requires { 1 ≤ length line.now }
    ensures asked { option_map asked result ≡ settle_of (drop 1 line.now) }
    ensures within { IfSome result IsWithin }
{
    if !has_form(line, &["--secret", "--cap"]) {
        return None;
    }
    let secret = secret_in(value(line, "--secret", 1))?;
    let most = u64::from(limits::SETTLED);
    let cap = number_or_in(most, 1, most, value(line, "--cap", 1))?;
    Some(Command::Settle {
        secret,
        cap: cap as u32,
    })
}

// What the words behind `judge` ask for.
#[tactic(auto, unfolding(crate::specs::Command::judge_of))]
fn judge_in(line: &Line) -> Option<Command>
    requires { 1 ≤ length line.now }
    ensures asked { option_map asked result ≡ judge_of (drop 1 line.now) }
    ensures within { IfSome result IsWithin }
{
    if !has_form(line, &["--k", "--share"]) {
        return None;
    }
    let k = number_in(1, u64::from(bounds::JUDGED), value(line, "--k", 1))?;
    let share = number_in(1, u64::from(limits::SHARE), value(line, "--share", 1))?;
    Some(Command::Judge {
        k: k as u8,
        share: share as u16,
    })
}

// What the words behind `drill` ask for.
#[tactic(auto, unfolding(crate::specs::Command::drill_of))]
fn drill_in(line: &Line) -> Option<Command>
    requires { 1 ≤ length line.now }
    ensures asked { option_map asked result ≡ drill_of (drop 1 line.now) }
    ensures within { IfSome result IsWithin }
{
    if !has_form(line, &["--start", "--calls"]) {
        return None;
    }
    let start = number_in(0, u64::MAX, value(line, "--start", 1))?;
    let calls = number_in(1, bounds::CALLS, value(line, "--calls", 1))?;
    Some(Command::Drill { start, calls })
}

// The name of a store, as a command keeps it.
fn name(alloc: Global, store: &str) -> Result<Bytes, LineErr>
    ensures { MatchResult result (λ bytes. bytes ≡ store.now) (λ e. e ≡ LineErr.NoMemory) }
{
    let mut bytes = Vec::new(alloc);
    match bytes.extend_from_slice(store.as_bytes()) {
        Ok(()) => Ok(Items::of(bytes)),
        Err(_) => Err(LineErr::NoMemory),
    }
}

fn init_command(alloc: Global, words: &InitWords<'_>) -> Result<Command, LineErr>
    ensures { MatchResult result (λ c. (asked c ≡ init (init_said words.now)) × IsWithin c) (λ e. e ≡ LineErr.NoMemory) }
{
    let store = name(alloc, words.store)?;
    Ok(Command::Init {
        store,
        secret: words.choices.secret,
        scheme: words.scheme,
        vet: words.choices.vet,
        fresh: words.choices.fresh,
        rates: words.rates,
        caps: words.caps,
    })
}

fn serve_command(alloc: Global, words: &ServeWords<'_>) -> Result<Command, LineErr>
    requires { AreWithin words.now }
    ensures { MatchResult result (λ c. (asked c ≡ serve (serve_said words.now)) × IsWithin c) (λ e. e ≡ LineErr.NoMemory) }
{
    let store = name(alloc, words.store)?;
    Ok(Command::Serve {
        store,
        port: words.port,
        lanes: words.lanes,
        term: words.term,
        tick: words.tick,
    })
}

fn sheet_command(alloc: Global, words: &SheetWords<'_>) -> Result<Command, LineErr>
    requires { IsMonthWithin words.now.month.0 }
    ensures { MatchResult result (λ c. (asked c ≡ sheet (sheet_said words.now)) × IsWithin c) (λ e. e ≡ LineErr.NoMemory) }
{
    let store = name(alloc, words.store)?;
    Ok(Command::Sheet {
        store,
        month: words.month,
    })
}

// The command that the words behind `init` are.
fn read_init(alloc: Global, line: &Line) -> Result<Command, LineErr>
    requires { 1 ≤ length line.now }
    ensures within { IfOk result IsWithin }
    ensures command { IfOk result (λ c. option_map init (init_of (drop 1 line.now)) ≡ Some (asked c)) }
    ensures usage { (result ≡ Err LineErr.Usage) ↔ (option_map init (init_of (drop 1 line.now)) ≡ None) }
    ensures memory { result ≡ Err LineErr.NoMemory → names_store (option_map init (init_of (drop 1 line.now))) ≡ true }
{
    match init_in(line) {
        Some(words) => init_command(alloc, &words),
        None => Err(LineErr::Usage),
    }
}

// The command that the words behind `serve` are.
fn read_serve(alloc: Global, line: &Line) -> Result<Command, LineErr>
    requires { 1 ≤ length line.now }
    ensures within { IfOk result IsWithin }
    ensures command { IfOk result (λ c. option_map serve (serve_of (drop 1 line.now)) ≡ Some (asked c)) }
    ensures usage { (result ≡ Err LineErr.Usage) ↔ (option_map serve (serve_of (drop 1 line.now)) ≡ None) }
    ensures memory { result ≡ Err LineErr.NoMemory → names_store (option_map serve (serve_of (drop 1 line.now))) ≡ true }
{
    match serve_in(line) {
        Some(words) => serve_command(alloc, &words),
        None => Err(LineErr::Usage),
    }
}

// The command that the words behind `sheet` are.
fn read_sheet(alloc: Global, line: &Line) -> Result<Command, LineErr>
    requires { 1 ≤ length line.now }
    ensures within { IfOk result IsWithin }
    ensures command { IfOk result (λ c. option_map sheet (sheet_of (drop 1 line.now)) ≡ Some (asked c)) }
    ensures usage { (result ≡ Err LineErr.Usage) ↔ (option_map sheet (sheet_of (drop 1 line.now)) ≡ None) }
    ensures memory { result ≡ Err LineErr.NoMemory → names_store (option_map sheet (sheet_of (drop 1 line.now))) ≡ true }
{
    match sheet_in(line) {
        Some(words) => sheet_command(alloc, &words),
        None => Err(LineErr::Usage),
    }
}

// The command of that name that the words behind it are.
fn read_named(alloc: Global, name: Name, line: &Line) -> Result<Command, LineErr>
    requires { 1 ≤ length line.now }
    ensures within { IfOk result IsWithin }
    ensures command { IfOk result (λ c. named_of (Some name) (drop 1 line.now) ≡ Some (asked c)) }
    ensures usage { (result ≡ Err LineErr.Usage) ↔ (named_of (Some name) (drop 1 line.now) ≡ None) }
    ensures memory { result ≡ Err LineErr.NoMemory → names_store (named_of (Some name) (drop 1 line.now)) ≡ true }
{
    match name {
        Name::Settle => settle_in(line).ok_or(LineErr::Usage),
        Name::Judge => judge_in(line).ok_or(LineErr::Usage),
        Name::Init => read_init(alloc, line),
        Name::Serve => read_serve(alloc, line),
        Name::Sheet => read_sheet(alloc, line),
        Name::Drill => drill_in(line).ok_or(LineErr::Usage),
    }
}

/// Reads the words of a command line, after the program's name:
///
/// - `settle` with `--secret HEX64` and, where wanted, `--cap N`;
/// - `judge` with `--k K` and `--share S`;
/// - `init` with `--store FILE`, `--k`, `--m`, `--o` and `--n`, and, where wanted, `--secret HEX64`, `--share`, `--vet`,
///   `--fresh`, the rates `--get`, `--audit`, `--repair`, `--storage`, and the caps `--cap-nodes`, `--cap-customers`,
///   `--cap-segments`, `--cap-settled`, `--cap-tallies`, `--cap-statements`;
/// - `serve` with `--store FILE` and `--port P` and, where wanted, `--lanes`, `--term` and `--tick`;
/// - `sheet` with `--store FILE` and `--month YYYY-MM`;
/// - `drill` with `--start N` and `--calls N`.
///
/// Errors: `Usage` exactly for any other words; `NoMemory` only where a store is named.
#[tactic(auto, unfolding(crate::specs::Command::command_of))]
pub fn read_line(alloc: Global, line: &Line) -> Result<Command, LineErr>
    ensures within { IfOk result IsWithin }
    ensures command { IfOk result (λ c. command_of line.now ≡ Some (asked c)) }
    ensures usage { (result ≡ Err LineErr.Usage) ↔ (command_of line.now ≡ None) }
    ensures memory { result ≡ Err LineErr.NoMemory → names_store (command_of line.now) ≡ true }
{
    if line.is_empty() {
        return Err(LineErr::Usage);
    }
    match name_of(line.word(0)) {
        Some(name) => read_named(alloc, name, line),
        None => Err(LineErr::Usage),
    }
}

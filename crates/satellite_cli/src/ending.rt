// How a run of `serve` ends.
ghost use Rattle.std.specs.Prelude.{◌≡◌, length};
ghost use Rattle.std.specs.List.{list_any};
ghost use Rattle.sat_console.specs.Run.{code_of};
ghost use Rattle.sat_sessions.specs.Lanes.{session_full};
ghost use Rattle.sat_sessions.specs.Rounds.{round_full};
ghost use Rattle.sat_term.specs.Term.{is_failed, met_full};
ghost use Rattle.satellite_cli.specs.Ending.{EndsWith, Finishes, SaysBad, SaysEntries, SaysWanting, SaysWhy, flags_of, has_all_sessions, is_short, is_out_of_memory, is_wordless, lacks_memory, lacks_words, term_status};

use sat_base::{Link, NoMemory};
use sat_book::OpenErr;
use sat_console::{Status, fault, numbered_line, say, store_line};
use sat_sessions::{LaneEnd, Round, RoundEnd, RoundsEnd, SESSIONS, Session, SessionEnd};
use sat_term::{Ends, Term};
use std::alloc::Global;

// Says which row or record makes the store none.
fn say_bad_store<C: Link>(alloc: Global, console: &mut C, rule: u8, kind: u8, id: &[u8]) -> Status
    ensures { SaysBad rule kind id.now (code_of result) (C.about console.old) (C.about console.new) }
{
    match store_line(alloc, rule, kind, id) {
        Ok(line) => {
            say(console, &line);
            Status::BadStore
        }
        Err(NoMemory) => fault(console, Status::NoMemory),
    }
}

/// Says why there is no book.
pub(crate) fn say_why<C: Link>(alloc: Global, console: &mut C, why: &OpenErr) -> Status
    ensures { SaysWhy why.now (code_of result) (C.about console.old) (C.about console.new) }
{
    match why {
        OpenErr::Fault => fault(console, Status::StoreFault),
        OpenErr::BadRow { kind, id } => say_bad_store(alloc, console, 0, *kind, id.as_slice()),
        OpenErr::BadTables { rule, kind, id } => {
            say_bad_store(alloc, console, *rule, *kind, id.as_slice())
        }
        OpenErr::NoMemory => fault(console, Status::NoMemory),
    }
}

// Whether a session of a lane met the full term.
fn some_session_full(sessions: &[Session]) -> bool
    ensures { result ≡ list_any session_full sessions.now }
{
    sessions.iter().any(|session| matches!(session.end, SessionEnd::TermFull { .. }))
}

// Whether one of any lane did.
fn some_lane_full(lanes: &[Vec<Session>]) -> bool
    ensures { result ≡ list_any (λ lane. list_any session_full lane.items) lanes.now }
{
    lanes.iter().any(|lane| some_session_full(lane))
}

// Whether a round did.
fn some_round_full(rounds: &[Round]) -> bool
    ensures { result ≡ list_any round_full rounds.now }
{
    rounds
        .iter()
        .any(|round| matches!(round.end, RoundEnd::TermFull { .. }))
}

// Whether a worker met the full term.
#[tactic(auto, using(crate::proofs::Full::met_is))]
fn met_full(term: &Term) -> bool
    ensures { result ≡ met_full term.now }
{
    some_lane_full(&term.lanes)
        || some_round_full(&term.audits)
        || some_round_full(&term.repairs)
        || some_round_full(&term.tallies)
}

fn has_all_sessions(term: &Term) -> bool
    ensures { result ≡ has_all_sessions term.now }
{
    term.lanes.iter().any(|lane| lane.len() == SESSIONS)
}

fn some_failed(ends: &[LaneEnd]) -> bool
    ensures { result ≡ list_any is_failed ends.now }
{
    ends.iter().any(|end| matches!(*end, LaneEnd::Failed))
}

// Whether random words ran out for a round.
fn some_wordless(rounds: &[Round]) -> bool
    ensures { result ≡ list_any (λ round. is_wordless round.end) rounds.now }
{
    rounds
        .iter()
        .any(|round| matches!(round.end, RoundEnd::WordsFault))
}

fn lacks_words(term: &Term) -> bool
    ensures { result ≡ lacks_words term.now }
{
    some_wordless(&term.audits) || some_wordless(&term.repairs)
}

fn some_wanting(ends: &[LaneEnd]) -> bool
    ensures { result ≡ list_any is_out_of_memory ends.now }
{
    ends.iter().any(|end| matches!(*end, LaneEnd::NoMemory))
}

fn is_short(end: RoundsEnd) -> bool
    ensures { result ≡ is_short end }
{
    matches!(end, RoundsEnd::NoMemory)
}

// Whether memory ran out for a worker.
fn lacks_memory(ends: &Ends) -> bool
    ensures { result ≡ lacks_memory ends.now }
{
    some_wanting(&ends.lanes)
        || is_short(ends.audit)
        || is_short(ends.repair)
        || is_short(ends.tally)
}

/// What became of the last line of a run.
#[derive(Clone, Copy)]
pub(crate) enum LastLine {
    Whole,
    /// A put failed.
    Cut,
    /// It wasn't made.
    NoMemory,
}

// The fault of a term, the gravest first, or that of its last line.
fn status_of(ends: &Ends, term: &Term, last: LastLine) -> Status
    ensures { code_of result ≡ term_status (flags_of term.now ends.now) last }
{
    if met_full(term) || has_all_sessions(term) {
        return Status::TermFull;
    }
    if some_failed(&ends.lanes) {
        return Status::LaneFault;
    }
    if lacks_words(term) {
        return Status::WordsFault;
    }
    if lacks_memory(ends) {
        return Status::NoMemory;
    }
    match last {
        LastLine::Whole => Status::Ok,
        LastLine::Cut => Status::SinkFault,
        LastLine::NoMemory => Status::NoMemory,
    }
}

// Says how many entries a term had.
fn say_entries<C: Link>(alloc: Global, console: &mut C, entries: u64) -> LastLine
    ensures { SaysEntries entries result (C.about console.old) (C.about console.new) }
{
    match numbered_line(alloc, b"entries ", entries) {
        Ok(line) => {
            if say(console, &line) {
                LastLine::Whole
            } else {
                LastLine::Cut
            }
        }
        Err(NoMemory) => LastLine::NoMemory,
    }
}

// Says the line of a status, if it has one.
fn say_status<C: Link>(console: &mut C, status: Status)
    ensures { EndsWith (code_of status) (C.about console.old) (C.about console.new) }
{
    if status.line().is_empty() {
        return;
    }
    fault(console, status);
}

/// Says that a term had no entries, since memory ran out before its workers began.
pub(crate) fn say_idle<C: Link>(alloc: Global, console: &mut C) -> Status
    ensures status { result ≡ Status.NoMemory }
    ensures says { SaysWanting 0 (C.about console.old) (C.about console.new) }
{
    say_entries(alloc, console, 0);
    fault(console, Status::NoMemory)
}

/// Says how many entries a term had, and then its fault, if there was one.
pub(crate) fn finish<C: Link>(alloc: Global, console: &mut C, ends: &Ends, term: &Term) -> Status
    ensures { Finishes (flags_of term.now ends.now) (length term.now.history.items)
        (code_of result) (C.about console.old) (C.about console.new) }
{
    let entries = term.history.len() as u64;
    let last = say_entries(alloc, console, entries);
    let status = status_of(ends, term, last);
    say_status(console, status);
    status
}

// What is made before the workers of `serve` begin.
ghost use Rattle.std.specs.Prelude.{◌≡◌, ◌≤◌, ◌+◌, IfOk, IfErr, vec_capacity};
ghost use Rattle.sat_base.specs.declared.limits.TheConstants as limits;
ghost use Rattle.sat_book.specs.Openings.{Opens};
ghost use Rattle.sat_console.specs.Run.{code_of};
ghost use Rattle.sat_term.specs.Workers.{IsBlank};
ghost use Rattle.satellite_cli.specs.Serving.{NotOpened};

use crate::ending::say_why;
use sat_base::{Keeper, Link, NoMemory};
use sat_book::Book;
use sat_console::{Status, fault};
use sat_term::TermLog;
use std::alloc::Global;

/// Room for what is told of a term of so many lanes and three workers of rounds.
pub(crate) fn log_for(alloc: Global, lanes: usize) -> Result<TermLog, NoMemory>
    requires { lanes ≤ 16 }
    ensures blank { IfOk result (λ log. IsBlank lanes log) }
    ensures room { IfOk result (λ log. lanes + 3 ≤ vec_capacity log.numbers) }
{
    Ok(TermLog {
        numbers: Vec::with_capacity(alloc, lanes + 3)?,
        lanes: Vec::with_capacity(alloc, lanes)?,
        ends: Vec::with_capacity(alloc, lanes)?,
    })
}

/// A book, and the room for what is told of its term.
#[derive(Drop)]
pub(crate) struct Ready<K: Keeper> {
    pub book: Book<K>,
    pub log: TermLog,
}

/// A keeper over which there is no book, and the status that says why.
#[derive(Drop)]
pub(crate) struct Closed<K> {
    pub keeper: K,
    pub status: Status,
}

/// Opens a book over a keeper, and makes room for what is told. Where that can't be done it is said why.
pub(crate) fn open<C: Link, K: Keeper>(
    alloc: Global,
    console: &mut C,
    keeper: K,
    term: u64,
    lanes: usize,
) -> Result<Ready<K>, Closed<K>>
    requires term { (1 ≤ term) × (term ≤ limits.TERM) }
    requires few { lanes ≤ 16 }
    ensures opened { IfOk result (λ r. Opens K.about keeper term r.book) }
    ensures blank { IfOk result (λ r. IsBlank lanes r.log × (lanes + 3 ≤ vec_capacity r.log.numbers)) }
    ensures quiet { IfOk result (λ r. C.about console.new ≡ C.about console.old) }
    ensures closed { IfErr result (λ r. NotOpened K.about
        keeper r.keeper (code_of r.status) (C.about console.old) (C.about console.new)) }
{
    let Ok(log) = log_for(alloc, lanes) else {
        let status = fault(console, Status::NoMemory);
        return Err(Closed { keeper, status });
    };
    match Book::open(alloc, keeper, term) {
        Ok(book) => Ok(Ready { book, log }),
        Err(refused) => {
            let status = say_why(alloc, console, &refused.why);
            Err(Closed {
                keeper: refused.keeper,
                status,
            })
        }
    }
}

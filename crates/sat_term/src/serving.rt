// A whole term over one book.
ghost use Rattle.std.specs.Prelude.{◌≡◌, ◌+◌, ◌≤◌, [], length, map, IfOk, IfErr, Some, vec_capacity};
ghost use Rattle.sat_base.specs.declared.limits.TheConstants as limits;
ghost use Rattle.machine_history.specs.Orders.{SettleOnce};
ghost use Rattle.sat_book.specs.Book.{Keeps, Spell, start_of};
ghost use Rattle.sat_book.specs.Legal.{last_shown, said_of};
ghost use Rattle.sat_book.specs.Paid.{ClosedMonthsStay, PaysByTariff};
ghost use Rattle.sat_sessions.specs.Lanes.{post_view};
ghost use Rattle.sat_term.specs.Workers.{IsBlank, kits_view};
ghost use Rattle.sat_term.specs.Term.{TermClauses};

use crate::term::{Ends, Term, TermLog, Worked, Workers};
use crate::workers::work_all;
use order_limits::Keys;
use sat_base::{Clock, Gate, Keeper, Lane, Words};
use sat_book::Book;
use sat_sessions::RoundKit;
use std::alloc::Global;
use std::sync::Wait;
use std::thread::Threads;
use turnstile::Desk;

/// What a term leaves.
#[derive(Drop)]
pub struct Served<K, L, T, W, A, B, C> {
    pub keeper: K,
    pub workers: Workers<L, T, W, A, B, C>,
    pub term: Term,
    pub ends: Ends,
}

/// What is given back where there is no memory for the desk.
#[derive(Drop)]
pub struct NotServed<K: Keeper, L, T, W, A, B, C> {
    pub book: Book<K>,
    pub workers: Workers<L, T, W, A, B, C>,
    pub log: TermLog,
}

/// Puts a book with no entries yet on a desk, works all posts and kits at once, each in a thread of its own where threads
/// are to be had, and takes it off again. There are at most 16 posts, and the log has room for a number of each worker.
///
/// Whatever the threads' order, the term is one history of the book (`clauses`): its entries are just those that the
/// workers' sessions and rounds name, each worker's in the order in which it made them. A worker ends only for a cause
/// that its end names, and all connections are given back. No order settles twice (`once`), operators are paid by the tariff
/// (`pays`), closed months stay (`closed`), the keeper has the rows of the history's replay, and a crash leaves these, or
/// those of one step more that was answered as lost (`keeps`). Where there is no memory for the desk, all comes back, and
/// the book as it was.
pub fn serve_term<
    K: Keeper + Send,
    L: Lane,
    T: Clock + Send,
    W: Words + Send,
    A: RoundKit + Send,
    B: RoundKit + Send,
    C: RoundKit + Send,
    G: Gate,
    R: Threads + Wait + Sync,
>(
    rt: &R,
    alloc: Global,
    book: Book<K>,
    term: u64,
    keys: &Keys,
    workers: Workers<L, T, W, A, B, C>,
    gate: &G,
    log: TermLog,
) -> Result<Served<K, L, T, W, A, B, C>, NotServed<K, L, T, W, A, B, C>>
    requires book { book.history ≡ [] }
    requires term { (1 ≤ term) × (term ≤ limits.TERM) × (term ≤ book.room) }
    requires few { length workers.posts.items ≤ 16 }
    requires log { IsBlank (length workers.posts.items) log }
    requires room { length workers.posts.items + 3 ≤ vec_capacity log.numbers }
    requires audit_fits { A.fits (Some book.opening) workers.kits.audit }
    requires repair_fits { B.fits (Some book.opening) workers.kits.repair }
    requires tally_fits { C.fits (Some book.opening) workers.kits.tally }
    ensures clauses { IfOk result (λ r. TermClauses (A.tells (Some book.opening)) (B.tells (Some book.opening)) (C.tells (Some book.opening))
        keys.now term book.opening r.term r.ends
        (map (post_view L.about T.coming W.left W.faults) workers.posts.items) (map (post_view L.about T.coming W.left W.faults) r.workers.posts.items)
        (kits_view A.view B.view C.view workers.kits) (kits_view A.view B.view C.view r.workers.kits)) }
    ensures faults { IfOk result (λ r. last_shown book.opening.faults r.term.history.items ≤ (K.about r.keeper).faults) }
    ensures spell { IfOk result (λ _. Spell book.opening) }
    ensures once { IfOk result (λ r. SettleOnce (start_of book.opening) (map said_of r.term.history.items)) }
    ensures pays { IfOk result (λ r. PaysByTariff (start_of book.opening) r.term.history.items) }
    ensures closed { IfOk result (λ r. ClosedMonthsStay (start_of book.opening) r.term.history.items) }
    ensures keeps { IfOk result (λ r. Keeps K.about
        book.first book.opened r.keeper (start_of book.opening) r.term.history.items) }
    ensures err { IfErr result (λ r. (r.book ≡ book) × (r.workers ≡ workers) × (r.log ≡ log)) }
{
    let (desk, pass) = match Desk::new(alloc, book, term) {
        Ok(made) => made,
        Err(refused) => {
            let (book, _) = refused;
            return Err(NotServed { book, workers, log });
        }
    };
    let Worked {
        pass,
        workers,
        log,
        audits,
        repairs,
        tallies,
        audit_end,
        repair_end,
        tally_end,
    } = work_all(rt, alloc, &desk, pass, keys, workers, gate, log);
    let book = desk.close(pass);
    let (keeper, opening, history) = book.close();
    let TermLog {
        numbers,
        lanes,
        ends,
    } = log;
    Ok(Served {
        keeper,
        workers,
        term: Term {
            opening,
            history,
            passes: numbers,
            lanes,
            audits,
            repairs,
            tallies,
        },
        ends: Ends {
            lanes: ends,
            audit: audit_end,
            repair: repair_end,
            tally: tally_end,
        },
    })
}

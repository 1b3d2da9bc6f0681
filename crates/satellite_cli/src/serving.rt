// The command `serve`.
ghost use Rattle.std.specs.Prelude.{◌≡◌, ◌⊎◌, ◌+◌, ◌≤◌, [], None, IfSome, IsSome, length, vec_capacity};
ghost use Rattle.sat_base.specs.declared.limits.TheConstants as limits;
ghost use Rattle.sat_book.specs.Book.{BookView, start_of};
ghost use Rattle.sat_book.specs.Openings.{Opens};
ghost use Rattle.sat_console.specs.Run.{code_of};
ghost use Rattle.desk_runs.specs.Numbered.{Apart};
ghost use Rattle.sat_term.specs.Workers.{Every, IsBlank};
ghost use Rattle.satellite_cli.specs.Serving.{IsIdle, IsTerm, NotOpened, Stands, devices_view};

use crate::ending::{finish, say_idle};
use crate::opening::{Closed, Ready, open};
use crate::worker_devices::{WorkerDevices, devices_of, tools_of, workers_of};
use order_limits::Keys;
use sat_base::{Clock, Gate, Keeper, Lane, Link, NoMemory, Nodes, Ticks, Words};
use sat_book::Book;
use sat_console::Status;
use sat_sessions::Session;
use sat_term::{NotServed, Served, Term, TermLog, serve_term};
use std::alloc::Global;
use std::sync::Wait;
use std::thread::Threads;

// A number of its own for each worker, from 1.
fn numbered(numbers: Vec<u32>, workers: usize) -> Vec<u32>
    requires empty { numbers.items ≡ [] }
    requires room { workers ≤ vec_capacity numbers }
    requires few { workers ≤ 19 }
    ensures count { length result.items ≡ workers }
    ensures apart { Apart result.items }
{
    let mut numbers = numbers;
    for number in 0..workers {
        numbers.push_reserved(number as u32 + 1);
    }
    numbers
}

// No session for each lane.
fn unserved(alloc: Global, lists: Vec<Vec<Session>>, lanes: usize) -> Vec<Vec<Session>>
    requires empty { lists.items ≡ [] }
    requires room { lanes ≤ vec_capacity lists }
    ensures count { length result.items ≡ lanes }
    ensures empty { Every (λ lane. lane.items ≡ []) result.items }
{
    let mut lists = lists;
    for lane in 0..lanes {
        let _lane = lane;
        lists.push_reserved(Vec::new(alloc));
    }
    lists
}

// The keys of the store that a book was opened over.
fn keys_of<K: Keeper>(book: &Book<K>) -> Keys
    requires { book.now.history ≡ [] }
    ensures { result ≡ (start_of book.now.opening).setup.secret }
{
    Keys::new(book.core().settings().secret)
}

// What happened where there was no memory for the workers: nothing.
fn idle_term<K: Keeper>(alloc: Global, book: Book<K>, log: TermLog, lanes: usize) -> (K, Term)
    requires none { book.history ≡ [] }
    requires few { lanes ≤ 16 }
    requires blank { IsBlank lanes log }
    requires room { lanes + 3 ≤ vec_capacity log.numbers }
    ensures rows { result.1.opening.items ≡ book.opening.rows }
    ensures none { result.1.history.items ≡ [] }
    ensures passes { length result.1.passes.items ≡ lanes + 3 }
    ensures apart { Apart result.1.passes.items }
    ensures lists { length result.1.lanes.items ≡ lanes }
    ensures no_sessions { Every (λ lane. lane.items ≡ []) result.1.lanes.items }
    ensures no_rounds { (result.1.audits.items ≡ []) × (result.1.repairs.items ≡ []) × (result.1.tallies.items ≡ []) }
    ensures stands { Stands K.about book result.0 result.1.history.items }
{
    let (keeper, opening, history) = book.close();
    let TermLog {
        numbers,
        lanes: lists,
        ends: _,
    } = log;
    let term = Term {
        opening,
        history,
        passes: numbered(numbers, lanes + 3),
        lanes: unserved(alloc, lists, lanes),
        audits: Vec::new(alloc),
        repairs: Vec::new(alloc),
        tallies: Vec::new(alloc),
    };
    (keeper, term)
}

/// What a run of `serve` leaves, and what happened.
#[derive(Drop)]
pub(crate) struct Run<K, L, N, T, W, I> {
    pub status: Status,
    pub keeper: K,
    pub devices: WorkerDevices<L, N, T, W, I>,
    pub term: Option<Term>,
}

// What a run leaves where there was no memory for the workers.
fn idle<C: Link, K: Keeper, L, N, T, W, I>(
    alloc: Global,
    console: &mut C,
    book: Book<K>,
    log: TermLog,
    devices: WorkerDevices<L, N, T, W, I>,
) -> Run<K, L, N, T, W, I>
    requires none { book.history ≡ [] }
    requires few { length devices.posts.items ≤ 16 }
    requires blank { IsBlank (length devices.posts.items) log }
    requires room { length devices.posts.items + 3 ≤ vec_capacity log.numbers }
    ensures some { IsSome result.term }
    ensures idle { IfSome result.term (λ t. IsIdle K.about (length devices.posts.items) book result.keeper t
        (code_of result.status) (C.about console.old) (C.about console.new)) }
    ensures devices { result.devices ≡ devices }
{
    let lanes = devices.posts.len();
    let status = say_idle(alloc, console);
    let (keeper, term) = idle_term(alloc, book, log, lanes);
    Run {
        status,
        keeper,
        devices,
        term: Some(term),
    }
}

/// Opens a book over the keeper, has all lanes and the workers of rounds work at once until they end, and says how many
/// entries there were.
pub(crate) fn serve<
    C: Link,
    K: Keeper + Send,
    L: Lane,
    N: Nodes + Send,
    T: Clock + Send,
    W: Words + Send,
    I: Ticks + Send,
    G: Gate,
    R: Threads + Wait + Sync,
>(
    rt: &R,
    alloc: Global,
    term: u64,
    console: &mut C,
    keeper: K,
    devices: WorkerDevices<L, N, T, W, I>,
    gate: &G,
) -> Run<K, L, N, T, W, I>
    requires term { (1 ≤ term) × (term ≤ limits.TERM) }
    requires few { length devices.posts.items ≤ 16 }
    ensures closed { result.term ≡ None → NotOpened K.about
        keeper result.keeper (code_of result.status) (C.about console.old) (C.about console.new) × (result.devices ≡ devices) }
    ensures term { IfSome result.term (λ t. (book : BookView K) × Opens K.about
        keeper term book
        × (IsTerm K.about (start_of book.opening).setup.secret term book result.keeper t
        (code_of result.status) (C.about console.old) (C.about console.new)
        (devices_view L.about T.coming W.left W.faults N.held N.asks N.faults I.about devices.posts.items devices.audit devices.repair devices.tally)
        (devices_view L.about T.coming W.left W.faults N.held N.asks N.faults I.about result.devices.posts.items result.devices.audit result.devices.repair result.devices.tally)
        ⊎ (IsIdle K.about (length devices.posts.items) book result.keeper t
        (code_of result.status) (C.about console.old) (C.about console.new) × (result.devices ≡ devices)))) }
    ensures spare { (result.devices.tally.nodes ≡ devices.tally.nodes) × (result.devices.tally.words ≡ devices.tally.words) }
{
    let lanes = devices.posts.len();
    let Ready { book, log } = match open(alloc, console, keeper, term, lanes) {
        Ok(ready) => ready,
        Err(closed) => {
            let Closed { keeper, status } = closed;
            return Run {
                status,
                keeper,
                devices,
                term: None,
            };
        }
    };
    let keys = keys_of(&book);
    let tools = match tools_of(alloc, &book) {
        Ok(tools) => tools,
        Err(NoMemory) => return idle(alloc, console, book, log, devices),
    };
    let (workers, spare) = workers_of(devices, tools);
    match serve_term(rt, alloc, book, term, &keys, workers, gate, log) {
        Ok(served) => {
            let Served {
                keeper,
                workers,
                term,
                ends,
            } = served;
            let status = finish(alloc, console, &ends, &term);
            Run {
                status,
                keeper,
                devices: devices_of(workers, spare),
                term: Some(term),
            }
        }
        Err(refused) => {
            let NotServed { book, workers, log } = refused;
            let devices = devices_of(workers, spare);
            idle(alloc, console, book, log, devices)
        }
    }
}

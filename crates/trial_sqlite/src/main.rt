//! Keepers and books over SQLite databases, and a server over one.
//!
//! Without words each line of the input is answered by one of the output, but those of runs.
//!
//! - `store NAME` begins a store, and its rows follow as for `trial_cases`: `row`, a record, `without`, `like` and so on.
//!   `ask` and a call with its fields stand behind them. Each is answered by `noted`.
//! - `stop log` and `stop file` set up a file in memory of these rows, open a book over it, and ask the calls. The disk of the
//!   log, or that of the file, answers K calls and fails each later one. The run is made for each K from 0, until one comes
//!   to its end. Then the machine comes back, and the file is opened again. Each run is told by a line: K, and `unopened`
//!   where no book was opened; or `answered` and how many calls were, and `kept` and of how many calls the file has the rows;
//!   or `ended`. Or, where it isn't as it has to be, `wrong` and why. What has to be: the file has the rows that a keeper in
//!   memory has after the answered calls, or after one more, and where no book was opened those that it was set up with, or
//!   their upgrade; and once the calls from the lost one on are asked again, it has the rows of all.
//! - `commit` puts the rows since the one before together as one commit of a keeper. `stop new log` and `stop new file` ask
//!   these of a keeper over a new file, in the same way: `unmade` where there is no table, or `done` and `kept`.
//! - `made TEXT` says by which statements a database is made, and `found` tells what a keeper over it answers: how many
//!   commits are done, what the last was answered, how many faults were counted, the sum of the numbers in a table of another
//!   making, and the rows that it loads.
//! - `file TEXT` tells whether a file with these bytes is refused, and has them then.
//! - `rows` commits rows to a file in the folder where the program runs, and opens it again. `months` serves a store in three
//!   terms, from its making to a month's sheet: what each request is answered is a line. `network`, the last line, serves
//!   one with all its workers over storage nodes that this program plays, two of which are at fault.
//! - Empty lines and those that begin with `#` are answered by themselves, and all others by `bad-line`.
//!
//! With words it times rows in a file (`bench/keeper`, `bench/books`), in nanoseconds:
//!
//! - `time PATH COUNT` makes a file of that many rows: how long commits, the opening and a load take.
//! - `open PATH`: how long the opening of a file takes; `load PATH`, that and a load.
//! - `rows PATH` prints the rows of a file, a line each: the kind, and the id and the body in hex.
//! - `fill PATH` commits rows until a commit fails, as on a full disk: how many were acknowledged, and how many it can load.
//! - `store PATH COUNT` makes a store of that many settled orders, and `book PATH` prints how long it takes to open its
//!   file and a book over it.
//! - `settle PATH SERIAL COUNT` prints how long a book takes for each of so many orders, whose serials begin there, and
//!   `commit PATH SERIAL COUNT` how long the keeper alone takes for the rows of each.
//!
//! Nothing is promised beyond the contracts of `keeper_sqlite`, `sat_book` and `satellite_cli`.
#![tactic(auto)]

mod server;
mod stopping;
mod timing;

use anyhow::{Result, bail};
use gather::TokioNodes;
use keeper_sqlite::KeeperSqlite;
use sat_base::{KeeperMem, Nodes};
use server::Network;
use sqlite::{Connection, MemStore};
use std::alloc::Global;
use std::sync::Wait;
use std::thread::Threads;
use std::{env, io};
use stopping::Session;
use trial_lines::told_row;

fn check_rows(rt: &HostRuntime) -> Result<()> {
    let alloc = rt.alloc();
    let mut model = KeeperMem::of(Vec::new(alloc), Vec::new(alloc));
    timing::play(alloc, &mut model)?;
    let kept = timing::sum_of(model.rows());
    println!(rt; "in memory {kept}")?;
    let (written, refused) = timing::write_file(rt, "rows.db")?;
    println!(rt; "in a file {written}")?;
    println!(rt; "a second handle is refused: {refused}")?;
    let found = timing::sum_of(&timing::rows_of(rt, "rows.db")?);
    println!(rt; "opened again {found}")?;
    Ok(())
}

fn print_rows(rt: &HostRuntime, path: &str) -> Result<()> {
    for row in &timing::rows_of(rt, path)? {
        let Ok(line) = told_row(rt.alloc(), row) else {
            bail!("out of memory");
        };
        println!(rt; "{line}")?;
    }
    Ok(())
}

fn time(rt: &HostRuntime, words: &[&str]) -> Result<()> {
    match words {
        ["rows", path] => print_rows(rt, path),
        ["open", path] => timing::open(rt, path),
        ["load", path] => timing::load(rt, path),
        ["fill", path] => timing::fill_disk(rt, path),
        ["book", path] => timing::time_opening(rt, path),
        ["store", path, count] => timing::fill_store(rt, path, count.parse::<u64>()?),
        ["time", path, count] => timing::all(rt, path, count.parse::<u64>()?),
        ["settle", path, first, count] => {
            timing::time_settles(rt, path, first.parse::<u64>()?, count.parse::<u64>()?)
        }
        ["commit", path, first, count] => {
            timing::time_commits(rt, path, first.parse::<u64>()?, count.parse::<u64>()?)
        }
        _ => bail!(
            "open, load, rows, fill or book PATH; time or store PATH COUNT; settle or commit PATH SERIAL COUNT"
        ),
    }
}

// A keeper over a new database in memory.
fn keeper(alloc: Global) -> Result<KeeperSqlite<MemStore>> {
    match KeeperSqlite::of(Connection::open_in_memory(alloc)?) {
        Ok(keeper) => Ok(keeper),
        Err(_) => bail!("no table"),
    }
}

// A server in three terms. (The prover looks into the type of a keeper here, and not where lines are answered.)
fn serve_months<R: Threads + Wait + Sync>(rt: &HostRuntime, handles: &R) -> Result<()> {
    server::months(rt, handles, keeper(rt.alloc())?)
}

// A server over a network.
fn serve_network<N: Nodes + Send, R: Threads + Wait + Sync>(
    rt: &HostRuntime,
    handles: &R,
    network: Network<N>,
) -> Result<()> {
    server::run(rt, handles, keeper(rt.alloc())?, network)
}

// Answers the lines in front of one that has a network, or all.
fn answer_lines<R: Threads + Wait + Sync>(
    rt: &HostRuntime,
    handles: &R,
    lines: &[&str],
) -> Result<()> {
    let mut session = Session::new(rt.alloc());
    for line in lines {
        match *line {
            "rows" => check_rows(rt)?,
            "months" => serve_months(rt, handles)?,
            _ => {
                let answer = session.answer(lines, line)?;
                println!(rt; "{answer}")?;
            }
        }
    }
    Ok(())
}

// Answers all lines of the input. The last one may be a network.
fn answer_input<N: Nodes + Send, R: Threads + Wait + Sync>(
    rt: &HostRuntime,
    handles: &R,
    network: Network<N>,
) -> Result<()> {
    let input = io::read_to_string(rt.alloc(), rt.reader())?;
    let lines: Vec<&str> = input.lines().collect(rt.alloc())?;
    if let Some((last, front)) = lines.split_last() {
        if *last == "network" {
            answer_lines(rt, handles, front)?;
            return serve_network(rt, handles, network);
        }
    }
    answer_lines(rt, handles, &lines)
}

fn main(rt: HostRuntime) -> Result<()> {
    let alloc = rt.alloc();
    let words: Vec<String> = env::args(&rt)?.skip(1).collect(alloc)?;
    if words.is_empty() {
        let network = Network {
            audit: TokioNodes::new(rt),
            repair: TokioNodes::new(rt),
            tally: TokioNodes::new(rt),
        };
        return answer_input(&rt, &rt, network);
    }
    let words: Vec<&str> = words.iter().map(|word| word.as_str()).collect(alloc)?;
    time(&rt, &words)
}

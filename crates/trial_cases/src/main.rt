//! A book over a keeper in memory, and rounds at a desk of it, tried by lines. Each line of the input is answered by one of
//! the output, but `rows`, `nodes`, `audit`, `repair` and `tally`.
//!
//! - `store NAME` begins a store, and what it has follows, a line each: `row KIND ID BODY` in hexadecimal digits, or a record
//!   by its kind's name, the values of fields in their order, and `NAME=VALUE` for others. `without KIND ID` takes a row
//!   away. `like OTHER` takes the rows that stand below an earlier store's name; `clear KIND` takes those of a kind away;
//!   `at PLACE KIND ..` puts a record in place of the one that was put there, counted from 0; and `rising COUNT KIND ..` puts
//!   a record so often, its first number one greater each time. `fail NUMBERS` says which calls of the keeper are to fail,
//!   from 1: loads and commits are numbered together.
//! - `init` with its fields makes a store by `sat_init` over a keeper of these rows: `operator` and the key, or `not-empty`,
//!   `fault` or `words`.
//! - `open` opens a book over a keeper of these rows: `open`, or `fault`, or the first row that is no record, or the least
//!   rule that the tables break with the first record that breaks it. After `init` and `close` it opens one over the same
//!   keeper.
//! - Each further line is a call with its fields, which is answered by its reply. `close` closes the book: `entries N`. Then
//!   `rows` shows the rows that the keeper has, a line each.
//! - Where no book is open, `holds NODE SEGMENT INDEX BYTES` says that a node holds a piece, in hexadecimal digits, and
//!   `drops NODE SEGMENT INDEX` that it doesn't any more. `silent NUMBERS` says which asks of the nodes get no answer in the
//!   next round, numbered from 1. `moments NUMBERS` has the moments of its clock, `words COUNT WORD NUMBERS` its random
//!   words: so often this one, of which the draws of these numbers fail, and `term NUMBER` its term. `stop` says that the
//!   machine is stopped before it.
//! - `audit`, `repair` and `tally` open a book over a keeper of the rows and make one round of the kind at its desk. They
//!   tell how it ended and the places that it names, then each entry's reply, and then each ask: the node, its address and
//!   port, the segment, the index, the offset and the length. The next round has the rows and the pieces that it leaves.
//! - `nodes` tells what the nodes hold, a line each.
//! - What is noted is answered by `noted`. Empty lines and those that begin with `#` are answered by themselves, and all
//!   others by `bad-line`.
//!
//! The cases of the machine, of books, of `init` and of rounds are its stored input and output. Nothing is promised beyond the
//! contracts of these.
#![tactic(auto)]

mod devices;
mod founding;
mod running;
mod session;
mod told_rounds;

use anyhow::Result;
use session::Session;
use trial_lines::answer_input;

fn main(rt: HostRuntime) -> Result<()> {
    answer_input(&rt, Session::new(rt, rt.alloc()))
}

//! All workers of a term at once, each in a thread of its own: the lanes of connections, and the three kits of rounds.
//!
//! [`serve_term`] puts a book on a desk, works up to 16 posts and three kits, and takes the book off again. Whatever the
//! order of the threads, what is handed out is one history, of which each worker made just the entries that its sessions
//! or rounds name, in their order (`TermClauses`). What a round is doesn't matter here: a kit is any `RoundKit` of
//! `sat_sessions`.
//!
//! Not promised: that a thread runs, a turn or a connection comes, or any order between two workers but that of the
//! places in the history. That workers really run beside each other is shown by tests alone.
#![tactic(auto)]

mod kits;
mod lanes;
mod serving;
mod term;
mod workers;

pub use serving::{NotServed, Served, serve_term};
pub use term::{Ends, Kits, Term, TermLog, Workers};

//! A ticket desk: one value that many threads share, changed by one call at a time in the order of tickets.
//!
//! A thread enters a call with a [`Pass`] and gets it back with all that the pass has seen by then: a beginning of
//! the one history of calls that every thread sees, which ends with this call. Passes are split for further threads
//! and joined again, and the last one closes the desk.
//!
//! - [`Desk::enter`]: the call is one entry of the history, at the place of its ticket, with the pass's number, the
//!   call and the reply; the pass owns just this entry more (`done`). Or the ticket is at or above the term (`full`,
//!   `again`).
//! - [`Desk::split`] and [`Desk::join`] hand numbers and parts on. The halves of a pass have no number together, and
//!   each of theirs was the pass's (`apart`, `from_pass`), so two passes of a desk never have one.
//! - [`Desk::close`], with all parts: the value stands for exactly what the pass has seen, which is the whole
//!   history.
//!
//! The value is any [`Turn`], whose `turn` appends one entry. `docs/DESK.md` goes through a call step by step.
//!
//! Not promised: that a turn ever comes, fairness, or that a wake reaches a thread. A call of `enter` waits for those
//! before it.
#![tactic(auto)]

mod desk;
mod entry;
mod pass;
mod plays;
mod turn;
mod view;

pub use desk::{Desk, Turned, TurnedAt};
pub use entry::Entry;
pub use pass::{Pass, PassAt};
pub use turn::Turn;

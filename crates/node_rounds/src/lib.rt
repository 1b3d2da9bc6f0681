//! Rounds: what the satellite does on its own account at a desk of books.
//!
//! [`audit_round`] asks a silent node again, and then audits a stripe of a segment. [`repair_round`] repairs a segment,
//! and then moves a piece of a node that leaves. What such a round did is told by `Rounds`: its entries, which stand in the
//! history that its pass has seen; what was asked between them, under the store's keys; at which of the kit's moments and
//! with which of its words (`Works`). The plan of an accepted end is the one that was open, and the nodes that it calls
//! silent, and the targets that it doesn't tell as placed, are counted. [`a_recheck_says_what_is_held`],
//! [`a_repair_of_a_round_keeps_the_bytes`].
//!
//! [`tally_round`] enters the tally of an hour at the clock's next moment. It asks no node and draws no word, and its reply
//! says how it ends (`TallyRounds`, `TallyWorks`).
//!
//! [`AuditKit`], [`RepairKit`] and [`TallyKit`] are the kits of workers that make a round at each tick.
//!
//! The steps of a part are there by themselves for callers that have a book and no desk: [`plan_call`], [`ask`] and
//! [`end_call`].
//!
//! Not promised: that a tick comes, a turn comes or memory is found, or where the gate is passed.
#![tactic(auto)]

mod asking;
mod drawing;
mod entering;
mod kit;
mod kits;
mod laws;
mod parts;
mod rounds;
mod tally;
mod upkeep;

pub use asking::ask;
pub use kit::{Kit, NodesView, RoundStore};
pub use kits::{AuditKit, RepairKit};
pub use laws::{a_recheck_says_what_is_held, a_repair_of_a_round_keeps_the_bytes};
pub use rounds::{audit_round, repair_round};
pub use tally::{TallyKit, tally_round};
pub use upkeep::{Found, Upkeep, end_call, is_plan_of, plan_call, words_of};

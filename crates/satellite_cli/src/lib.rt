//! The satellite: its commands, from their words to their status, over any devices.
//!
//! [`satellite`] is the top call. It reads the words ([`read_line`]) and runs what they ask for over the devices of a
//! [`World`]:
//!
//! - `settle` and `judge` answer the console's input (`sat_console`);
//! - `init` makes a store in the keeper (`sat_init`) and writes the operator's key;
//! - `serve` opens a book over the keeper, has all lanes and the workers that audit, repair and tally (`node_rounds`) work at
//!   once until they end (`sat_term`), and writes how many entries there were. What happened is its [`Term`];
//! - `sheet` opens a book over the keeper and writes the sheet of a month that is closed (`tally_payout`);
//! - `drill` drives a machine in memory by a number, and writes what came of it (`sat_drill`).
//!
//! Each status has its cause; what a run wrote, left in the keeper and left in the history stands in its clauses.
//!
//! Not promised: that memory is found (9 has no cause that a clause could name), that a read, a write, a connection or a
//! tick comes. Errors stand on the console.
#![tactic(auto)]

mod drilling;
mod ending;
mod making;
mod opening;
mod printing;
mod serving;
mod top;
mod worker_devices;
mod world;
mod worlds;

pub use command_line::{Command, LineErr, read_line};
pub use node_rounds::Kit;
pub use sat_console::Status;
pub use sat_drill::Drilled;
pub use sat_sessions::Post;
pub use sat_term::Term;
pub use top::satellite;
pub use world::{Ended, World};

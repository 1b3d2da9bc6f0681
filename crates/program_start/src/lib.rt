//! What the programs do before their top call: they read the words, say why these are no command, and open the file of a store.
//!
//! - [`words`] are those after the program's name. Words that are no text are read as none, which is no command either.
//! - [`say_usage`] says on standard error which word is wrong, by the [`Form`]s of a program's commands.
//! - [`open_store`] opens the file of a SQLite database, which only its owner may use where it is made.
//! - [`say_start`] gives the status of a program whose top call isn't made, and prints its line.
//!
//! Standard error is for people: no clause rests on it, and nothing else is proved here but that it is safe.
#![tactic(auto)]

mod arguments;
mod start;
mod store_file;
mod usage;

pub use arguments::words;
pub use start::{StartErr, say_start};
pub use store_file::open_store;
pub use usage::{Form, Named, Need, Program, Value, say_usage};

//! The words of the command line, and the command that they are.
//!
//! Behind the command's name stand pairs of `--name` and a value, in any order. [`read_line`] gives the command exactly
//! where the words are one: each name is the command's own and comes once, each required name is there, each value is
//! within its bounds. What words say is a definition: `word_pairs` has the form and the values, `specs/Command.antt` the
//! commands.
//!
//! Not promised: that memory is found for the name of a store.
#![tactic(auto)]

pub mod bounds;
mod command;
mod init;
mod names;
mod serve;
mod sheet;
mod values;

pub use command::{Command, LineErr, read_line};

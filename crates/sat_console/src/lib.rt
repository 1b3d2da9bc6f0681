//! The console of the satellite: the commands that answer its input, and how a run ends.
//!
//! [`settle`] and [`judge`] read the input whole and write the text of its answers (`Ran`). Which line has the form, and
//! what each is answered, are definitions in `specs/Form.antt`, `Answers.antt` and `Judge.antt`.
//!
//! - At status 0 the whole input was read, and what was written is exactly the text of the answers (`settle`) or the
//!   line of the verdict (`judge`). At any other status it is a front of such a text and then the status's line.
//! - 5 and 11 come only where the console's write or read count rose, 8 only from `judge`, 12 only where 1048577 bytes
//!   were read.
//! - Nothing settles twice, and nothing above its limit, over the answers to any lines (`settles_once`).
//!
//! [`say`] and [`fault`] write one line, and [`Status`] has the line of each fault.
//!
//! Not promised: that memory is found, or that a read or a write returns.
#![tactic(auto)]

mod answer;
mod commands;
mod judging;
mod lines;
mod run;
mod settling;
mod status;
mod text;

pub use commands::{judge, settle};
pub use run::{fault, say};
pub use status::Status;
pub use text::{numbered_line, store_line};

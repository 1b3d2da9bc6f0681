//! Lines that trials are made of. Numbers are decimal, `-` is an empty list, a list's items stand apart by commas and an
//! item's parts by colons. Bytes stand as text, too.
//!
//! - Words: the numbers and lists of a line ([`Fields`]), bytes as text ([`bytes_of`], [`text_of`]), and the loop of a
//!   program that answers lines ([`answer_input`]).
//! - Stores: rows by their bytes or by the fields of a record ([`row_of_record`]), which a [`Store`] notes.
//! - Calls: the call that a line says ([`call_of`]), and a reply in words ([`told_reply`]).
//! - Books: a [`BoundedBook`] is asked while it has room.
//!
//! It is there for the `trial_` and `bench_` crates alone, and promises nothing beyond being safe and what calls need.
#![tactic(auto)]

// Words
mod answering;
mod fields;
mod text;

// Stores
mod forms;
mod records;
mod row_text;
mod store;

// Calls
mod audits;
mod calls;
mod months;
mod orders;
mod pieces;
mod plans;
mod repairs;
mod requests;

// Replies
mod refusals;
mod replies;
mod told_plans;

// Books
mod bounded_book;
mod opening;

pub use answering::{Answers, answer_input};
pub use bounded_book::BoundedBook;
pub use calls::call_of;
pub use fields::{Fields, LineErr, Number};
pub use opening::told_open;
pub use records::row_of_record;
pub use replies::told_reply;
pub use row_text::{row, told_row, told_rows};
pub use store::{Store, change_of_line, keeper_of};
pub use text::{bytes_of, text_of};

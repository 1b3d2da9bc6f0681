//! The wire: the bytes of a connection to one wish or one named error, and replies to the bytes of answers.
//!
//! Heads are read as `http_parts` reads them (RFC 9112), bodies by `serde_json`'s grammar (RFC 8259). What a request is, is a
//! relation between all bytes of a connection and a wish or an error, in `specs/Requests.antt`.
//!
//! - [`read_request`] gives what all bytes say (`outcome`): the first error in its order, but that of the three
//!   errors of a head any whose cause holds may come. It takes a front of them, at most 73728 bytes. It makes no read
//!   once what was taken decides, and asks for no more than the missing bytes of a body. A failed read is counted,
//!   and nothing else (`took`). A statement is asked by a head alone. Months and rates are within their bounds (`within`).
//! - [`heads_decide`]: where a head stands the bytes say one thing.
//! - [`answer`], [`edge_answer`] and [`memory_answer`] are exactly the status line, the headers and the JSON text,
//!   with the right keys and limits in them.
//!
//! `docs/FORMATS.md` has each route, field, answer and refusal, so that a client can be written from it.
//!
//! Not promised: that a read returns, or anything of a second request on a connection.
#![tactic(auto)]

mod answers;
mod demand;
mod errors;
mod fields;
mod laws;
mod months;
mod offers;
mod order;
mod pieces;
mod refusals;
mod replies;
mod request;
mod routes;
mod statements;

pub use answers::{answer, edge_answer, memory_answer};
pub use errors::{EdgeErr, ReadErr};
pub use laws::{bodies_are_spelled, heads_decide};
pub use machine_calls::Wish;
pub use request::read_request;

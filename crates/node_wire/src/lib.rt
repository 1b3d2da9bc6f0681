//! What a storage node is asked over HTTP, and what the bytes of its answer say.
//!
//! A connection carries one ask: a request, an answer, and the end (RFC 9112).
//!
//! - [`fetch_request`] and [`put_request`] give exactly the bytes of `GET /piece/SEGMENT/INDEX` and of `PUT`, with the
//!   ask's order in hex, its range or its body.
//! - [`Reading`] takes the bytes of an answer in whatever pieces they come. [`Reading::feed`] and [`Reading::end`] tell
//!   what all bytes so far say (`told`), which is the relation `Heard` of `specs/Heard.antt`. As what bytes decide they
//!   decide with any that follow ([`outcomes_stand`]), it is told at the first piece that decides it, wherever the
//!   bytes are cut. A reading takes no memory once it is made.
//! - [`fetched`] and [`stored`] give what was heard as the answers of `sat_base`'s `Nodes`.
//!
//! An answer of status 200 with one Content-Length and as many bytes is a share; one that is longer than was asked is a
//! share of no bytes. Status 404 says that the piece is missing. A put is kept by status 200. All else is no answer. A head
//! that can't be completed any more is told only at 8192 bytes, or where they end.
#![tactic(auto)]

mod answers;
mod head;
mod reading;
mod request;

pub use answers::{fetched, stored};
pub use head::Question;
pub use reading::{Fed, Outcome, Reading, outcomes_stand};
pub use request::{address, fetch_request, put_request};

//! The wire of a storage node: what the bytes of a connection ask of it, the bytes of its answers, and how an order is offered
//! to the satellite.
//!
//! - [`read_request`] reads `GET /piece/SEGMENT/INDEX`, with an order and a range in headers, or `PUT` of the same path, with
//!   an order and the piece as body (RFC 9112). A request is told exactly where one stands at the front of the bytes
//!   (`outcome`), whatever the source tells (`took`). No read is made once what was taken decides, and none asks for
//!   more than is missing of a piece. Bytes ask one thing at most ([`requests_are_one`]).
//! - [`answer_bytes`] and [`memory_answer`] are exactly the bytes of an answer: its status line, three headers, and the bytes of a
//!   piece or a text in JSON (RFC 8259).
//! - [`settle_request`] is exactly the request `POST /n/NODE/settle` of an order, under the node's key. [`read_settlement`] says
//!   of the satellite's answer whether the order is settled, or never will be, exactly where a whole answer stands at the
//!   front of the bytes.
//!
//! `docs/FORMATS.md` has each header, answer and refusal, so that a client can be written from it.
//!
//! Not promised: that a read returns, or anything of a second message on a connection.
#![tactic(auto)]

mod answers;
mod demand;
mod offering;
mod piece_path;
mod refusals;
mod request;
mod response;
mod settle;
mod settled;
mod values;

pub use answers::{Answer, answer_bytes, memory_answer};
pub use offering::offer_over;
pub use request::{ReadErr, Request, read_request, requests_are_one};
pub use settle::{Account, settle_request};
pub use settled::{SettleErr, Settlement, offered, read_settlement};

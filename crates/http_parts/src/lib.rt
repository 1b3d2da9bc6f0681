//! The parts of HTTP that every program of ours uses, whoever asks and whatever it asks for: heads and bodies of requests,
//! headers by name, messages with a body in JSON, and the sending of bytes.
//!
//! - [`read_head`] reads the head of a request, of at most [`MAX_HEAD`] bytes and [`MAX_LINES`] header lines, by `httparse`'s
//!   grammar (RFC 9112). Once what was taken decides, no read is made (`took`). How it ended says what stands at the front
//!   of the bytes (`end`).
//! - [`first_named`] and [`count_named`] are exactly the first value and the number of the headers of a name, whatever the
//!   case of its letters (RFC 9110, 5.1). [`holds_key`] says whether a value is a key in hex.
//! - [`fetch_body`] gives the bytes of a body and asks for no byte more than are missing of it (`took`, `body`).
//! - [`message_of`] is exactly the status line, three headers and the JSON text (RFC 9112, RFC 8259).
//! - [`send`] writes a message whole, or, where a put fails, some of it from its front.
//!
//! [`MAX_BODY`] is the most bytes of a body with fields; who reads a body says itself how long one may be.
//!
//! Not promised: that a read or a put returns, or anything of a second message on a connection.
#![tactic(auto)]

mod bodies;
mod bounds;
mod head;
mod headers;
mod keys;
mod messages;
mod sending;

pub use bodies::{BodyErr, fetch_body};
pub use bounds::{MAX_BODY, MAX_HEAD, MAX_LINES};
pub use head::{HeadEnd, HeadRead, read_head};
pub use headers::{count_named, first_named};
pub use keys::holds_key;
pub use messages::message_of;
pub use sending::{Sent, send};

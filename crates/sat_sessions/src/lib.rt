//! What workers do at a desk of books: sessions of connections, one after another.
//!
//! [`listen`] reads one request and gives its call, with the clock's next moment and, for a segment that begins, the
//! next 128 random words; or the error that the bytes say. [`speak`] writes the text of a reply or an error, or that
//! memory runs out.
//!
//! [`session`] is one connection: what it heard is entered once, at the place that it names, and the reply of that entry
//! is what it says (`Serves`, `Connects`). A good request is answered with status 200 or 507 (`good`,
//! [`good_requests_are_answered`]).
//!
//! [`lane_worker`] serves the connections of a lane, each of which it gives back. Its sessions are a chain (`LaneRan`):
//! between two of them nothing happens, and it ends only for one of the six causes of [`LaneEnd`].
//!
//! A worker of rounds is told of in the same way, whatever a round is: a kit is any [`RoundKit`].
//!
//! Not promised: that a connection comes, a read or a write returns or a turn comes, that memory is found, or where the
//! gate is passed. Of a lane's number and the gate only tests tell.
#![tactic(auto)]

mod lanes;
mod laws;
mod listening;
mod rounds;
mod serving;
mod speaking;
mod told;

pub use lanes::{LaneEnd, LaneWorked, Post, SESSIONS, lane_worker};
pub use laws::good_requests_are_answered;
pub use listening::{Listened, draw, listen};
pub use rounds::{Round, RoundEnd, RoundKit, RoundsEnd, RoundsWorked};
pub use serving::session;
pub use speaking::{Said, speak};
pub use told::{BookPass, Session, SessionEnd, SessionWorked};

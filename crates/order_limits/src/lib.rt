//! Keys, order limits and orders: how they are derived, written and read.
//!
//! Tags are HMAC-SHA-256 under keys that derive from the satellite's one secret. A limit lets a node move bytes of
//! one piece; an order says how many were moved.
//!
//! - [`hmac`] is RFC 2104 over SHA-256 (FIPS 180-4). [`Keys`] derives by it, and keeps hash states without changing a
//!   key.
//! - [`Limit::write`] and [`Order::write`] give exactly the bytes of the format.
//! - [`read_order`] and [`read_limit`] read one exactly where the bytes are one (`found`, `only`), and otherwise tell
//!   the first cause, in the order of [`OrderErr`] (`exact`).
//! - [`read_offer`] reads an order as its node can, which has no key for the order's own tag.
//! - [`Grant`] gives the limits of an offer or a plan, which expire after [`LIFE`]; an order can be settled for
//!   [`SETTLE_TIME`] more.
//! - [`is_same`] says whether bytes that were given are a key or a tag.
//!
//! Nothing here takes memory.
//!
//! Not promised: that a tag can't be forged, or how long [`is_same`] takes, which no contract can say. Nor that an order
//! is fresh, in time or within its limit: that is settlement's.
#![tactic(auto)]

mod bytes;
mod grant;
mod keys;
mod limit;
mod mac;
mod read;
mod same;

pub use grant::{Grant, LIFE, SETTLE_TIME};
pub use keys::Keys;
pub use limit::{Action, Limit, Order};
pub use mac::hmac;
pub use read::{OrderErr, read_limit, read_offer, read_order};
pub use same::is_same;

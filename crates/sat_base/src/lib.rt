//! What every crate of the satellite speaks of, in three groups.
//!
//! - **The outside**: [`Source`], [`Sink`] and [`Link`], over [`Outside`], which says what they tell and count;
//!   [`Clock`] and [`Words`]; storage nodes, [`Nodes`]; and what keeps rows, [`Keeper`]. Each has a form in memory,
//!   which tells all. Real ones tell each other by a [`Service`] when to end.
//! - **Time**: [`Moment`], [`Month`] and [`Hour`], and [`month_of`], the civil month in UTC of every moment.
//! - **Records**: ids, the [`Scheme`] of coding, settings and marks, requests that are kept, rates, the bounds of all of
//!   them in [`limits`], numbers of decimal digits ([`number`]), and lists as
//!   [`Items`].
//!
//! What is told is one equation: what was left to read is what was taken, then what is left now. A source also tells
//! which reads were made. A failed call raises its object's count by one, up to 2^64 - 1, and no other answer does.
//! `fetch` gives the asked range of what a node holds, a put that isn't kept leaves all other pieces, and `fetch_all`
//! answers each ask in its order. A `Keeper` loads its rows in the order of their keys, commits all changes in order
//! or none, and says which rows a crash may leave. [`Scheme::check`] gives a scheme or the first rule that is broken.
//!
//! In memory a call of a chosen number fails. A put also fails where memory runs out, and a draw where no word is
//! left.
//!
//! Not promised: that a read or a write of a real device returns, or that a clock doesn't go back.
#![tactic(auto)]

// Lists and numbers
mod ids;
mod items;
mod line;
mod no_memory;
mod text;

// Time
mod moment;
mod month;

// Records
pub mod kinds;
pub mod limits;
mod ranked;
mod rates;
mod records;
mod requests;
mod scheme;
mod settings;

// Rows of a store
mod keeper;
mod keeper_mem;
mod row_list;
mod rows;

// The outside
mod clock;
mod console;
mod failing;
mod gate;
mod lane;
mod mem_lane;
mod mem_nodes;
mod nodes;
mod outside;
mod service;
mod streams;
mod ticks;
mod words;

pub use clock::{Clock, MemClock};
pub use console::{MemConsole, MemLink};
pub use gate::{Gate, HoldGate, OpenGate, Point};
pub use ids::{CustomerId, NodeId, SegId, Serial};
pub use items::{Bytes, Indexes, Items, Share, Words64};
pub use keeper::{Committed, Keeper, Loaded};
pub use keeper_mem::KeeperMem;
pub use lane::{Came, Lane};
pub use line::Line;
pub use mem_lane::MemLane;
pub use mem_nodes::MemNodes;
pub use moment::Moment;
pub use month::{Hour, Month, month_of, months_follow_moments};
pub use no_memory::NoMemory;
pub use nodes::{Ask, Fetched, Held, Nodes, Stored};
pub use outside::{Given, Link, Outside, ReadMade, Sink, Source, Taken};
pub use ranked::Ranked;
pub use rates::{Rates, Tariff};
pub use records::{At, Containment, Key};
pub use requests::{Asked, Done, Kept, Offer, Place};
pub use rows::{Change, Row};
pub use scheme::{Scheme, SchemeErr};
pub use service::Service;
pub use settings::{Caps, Customer, Marks, Settings};
pub use streams::{Filled, Filling, fill, write_all};
pub use text::{cut, is_numeral, number, value_up_to};
pub use ticks::{Beat, MemTicks, Ticks};
pub use words::{Drawn, MemWords, Words};

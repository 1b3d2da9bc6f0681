//! The real devices that the program runs on, behind the traits of `sat_base`.
//!
//! They are the trusted edge, a few lines each, and tell nothing of what they hold.
//!
//! - **Console**: [`Console`] over standard input and output. A call that a signal interrupts is made again. A write that
//!   takes no byte of a piece counts as failed.
//! - **Lanes**: [`TcpLane`], the connections that come to a port of 127.0.0.1, or of another address that is named, each a
//!   [`TcpLink`]. It takes and reads up to 4096 of them side by side while it waits, so a client that says nothing holds
//!   nobody: a link is handed out once its request is decided, or its client sends no more. What a client doesn't take of its
//!   answer is written in the same way.
//! - **Time and chance**: [`SystemClock`], which gives its last moment again where the machine's can't be read,
//!   [`SleepTicks`], and [`MachineWords`] from the system's source of random numbers.
//! - **For other devices**: [`TimeLimit`] over several calls; [`read_once`] and [`write_once`], which make an interrupted call
//!   again.
//!
//! A call that is answered as failed raises its object's count by one, and no other answer does.
//!
//! A connection whose client is silent for ten seconds, or whose request takes more than thirty, is closed without an
//! answer, but where its head is whole it is handed out, since that may decide it; one whose answer isn't taken within
//! thirty is closed, too. Where its answer is written it is read on for up to
//! two seconds, so that bytes which nobody read don't lose the answer. Where places, files or memory run out, or the
//! lane's [`Room`] does, the connection that came first of those whose requests aren't whole makes room. An error of the
//! system ends a lane only where it says that the port takes no connection any more.
//!
//! Not promised: what a terminal, a file or a client sends, that a call returns, how long it takes, that words are random,
//! or that a failed call of the system is answered as failed. `trial_devices` tries these.
#![tactic(auto)]

mod arriving;
mod console;
mod front;
mod guests;
mod leaving;
mod luck;
mod machine_words;
mod once;
mod room;
mod sleep_ticks;
mod system_clock;
mod tcp_lane;
mod tcp_link;
mod time_limit;
mod watched;
mod whole;

pub use console::Console;
pub use machine_words::MachineWords;
pub use once::{read_once, write_once};
pub use room::Room;
pub use sleep_ticks::SleepTicks;
pub use system_clock::SystemClock;
pub use tcp_lane::TcpLane;
pub use tcp_link::TcpLink;
pub use time_limit::TimeLimit;
pub use watched::Watched;

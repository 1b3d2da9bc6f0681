//! The real devices of a storage node, behind the traits of `stor_base`. They tell nothing of what they hold, and count what
//! failed.
//!
//! - [`FolderPieces`] keeps each piece as a file of a folder. A piece that is put anew stands under another name until it is
//!   synced, is then renamed over the old one, and the folder is synced behind that; so a crash of the machine leaves the old
//!   piece or the new one. A read takes just the range that is asked for. No two pieces have one name ([`names_are_one`]).
//! - [`HttpSettler`] offers orders to the satellite over HTTP, at a port of this machine, each over a connection of its own.
//!
//! A call that is answered as failed raises its object's count by one, up to 2^64 - 1, and no other answer does. Calls that a
//! signal interrupts are made again.
//!
//! Not promised: what stands in a folder, that a sync of the system reaches the disk, that a full or broken disk is told at once,
//! that a read or a write of a file returns, or anything where two programs, or two of these, write into one folder. A disk
//! that is unmounted under a folder leaves an empty one, whose pieces are then told as missing. An exchange with the satellite
//! takes thirty seconds at most by the machine's clock. `trial_devices` tries these.
#![tactic(auto)]

mod client_link;
mod folder_pieces;
mod http_settler;
mod piece_files;

pub use folder_pieces::FolderPieces;
pub use http_settler::HttpSettler;
pub use piece_files::names_are_one;

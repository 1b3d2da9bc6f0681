// Books and keepers over files in memory that stop, by lines.
mod asking;
mod files;
mod keepers;
mod runs;
mod session;

pub use session::Session;

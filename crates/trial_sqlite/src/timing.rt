// Rows in a real file, and books over it.
mod books;
mod files;
mod filling;
mod made;
mod times;

pub(crate) use books::{fill as fill_store, time_commits, time_opening, time_settles};
pub(crate) use files::{play, rows_of, write_file};
pub(crate) use filling::fill as fill_disk;
pub(crate) use made::sum_of;
pub(crate) use times::{all, load, open};

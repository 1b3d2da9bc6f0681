//! Records as rows of a store, and rows as records.
//!
//! A record of a kind has one spelling, an id and a body of bytes, as `specs/Spelling.antt` has it field by field.
//!
//! - [`write`] gives the row of a record, and each kind has a writer of its own. It asks only that no list has more than
//!   128 items.
//! - [`read`] gives the record of a row exactly where one within the bounds has it, and else the first cause of
//!   [`RowErr`] that holds: another kind, an id that no record of the kind has, or such a body. The id is looked at
//!   before the body.
//! - [`remove`] gives the change that removes the row of a key.
//! - [`version_of`] gives the version of a store by its first row, and [`upgrade`] what becomes of a row of a version in the
//!   latest: nothing, or its record, and another that it implies. A row that holds no record of the version is refused.
//!
//! A row is that of one record (`one_record_a_spelling`), no id or body of a kind is a front of another
//! (`no_spelling_is_a_front`), and ids stand byte by byte in the order of ranks (`ids_stand_in_order`).
//!
//! What is spelled one behind the other is a nested pair, and a list is a count and its items; that bytes are read
//! exactly where they begin so is proved once for each of the two. So a kind is the pairs of its id and its body, in
//! `kinds`.
//!
//! A new field of a record, or any other change of what rows hold, makes a version of a store:
//! 1. [`Version`] gets a variant, which is then `LATEST`; [`version_of`] tells it by the byte that settings begin with.
//! 2. The kind as it was read goes beside the kind, into `kinds/KIND/versionN.rt`; its bytes into `specs/VersionN`.
//! 3. [`upgrade`] gets an arm for the version that was the latest: what becomes of rows of this kind, and of settings.
//! 4. `specs/Versions` gets the arms beside it: which record a row of that version holds, and which it implies.
//!
//! Not promised: that records agree with one another, which is for the rules of the tables.
#![tactic(auto)]

// Bytes
mod coded;
mod list;
mod made;
mod numbers;
mod pair;

// Parts of records
mod amounts;
mod choices;
mod ids;
mod places;
mod requests;
mod setup;
mod times;

// Records
mod kind;
mod kinds;

// Rows
mod laws;
mod reading;
mod upgrading;
mod version;
mod writers;
mod writing;

pub use kind::RowErr;
pub use laws::{
    ids_stand_in_order, no_spelling_is_a_front, one_record_a_spelling, versions_are_told_apart,
};
pub use reading::read;
pub use record_kinds::Rec;
pub use upgrading::{Upgraded, upgrade};
pub use version::{Version, version_of};
pub use writers::{
    write_audit_plan, write_containment, write_customer, write_exit_plan, write_kept, write_left,
    write_marks, write_node, write_recheck_plan, write_repair_plan, write_segment, write_settings,
    write_settled, write_statement, write_tally, write_tariff,
};
pub use writing::{remove, write};

// What a book is opened with, and why none is.
ghost use Rattle.std.specs.Prelude.{◌≡◌};

use sat_base::{Bytes, Items, Keeper, NoMemory, Row};
use sat_machine::{Core, CoreErr};
use std::snapshot::Snapshot;

/// What a book was opened with, which no call changes.
#[derive(Drop)]
pub struct Opening {
    /// The rows, in the order of their keys: those that the keeper had, or what became of them where they were of an
    /// earlier version.
    pub rows: Items<Row>,
    /// The machine that they make, for contracts to speak of: a snapshot has no bytes.
    pub core: Snapshot<Core>,
    /// The count of the keeper's faults.
    pub faults: u64,
}

/// What no call changes of a book: what it was opened with, and its keeper, as it was handed in and as the book was opened.
/// No value of it is made.
#[derive(Drop)]
pub struct Origin<K> {
    pub opening: Opening,
    pub first: K,
    pub opened: K,
}

/// Why no book was opened.
#[derive(Debug, PartialEq, Eq, Drop)]
pub enum OpenErr {
    /// The keeper failed, and counted it.
    Fault,
    /// The first row that is no record.
    BadRow { kind: u8, id: Bytes },
    /// The least rule of the tables that is broken, and the first record that breaks it.
    BadTables { rule: u8, kind: u8, id: Bytes },
    NoMemory,
}

impl From<NoMemory> for OpenErr {
    ghost use Rattle.sat_book.specs.declared.opening.OpenErr.{OpenErr};

    ghost from_gives = { λ _ err. err ≡ OpenErr.NoMemory };

    fn from(_: NoMemory) -> Self {
        OpenErr::NoMemory
    }
}

impl From<CoreErr> for OpenErr {
    ghost use Rattle.sat_book.specs.Opened.{told_of};

    ghost from_gives = { λ found err. err ≡ told_of found };

    fn from(found: CoreErr) -> Self {
        match found {
            CoreErr::Rule { rule, kind, id } => OpenErr::BadTables { rule, kind, id },
            CoreErr::NoMemory => OpenErr::NoMemory,
        }
    }
}

/// A keeper over whose rows no book was opened.
#[derive(Drop)]
pub struct NotOpened<K: Keeper> {
    pub keeper: K,
    pub why: OpenErr,
}

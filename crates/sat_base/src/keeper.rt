// The trait of what keeps rows. What is loaded and committed is spoken of where the keeper tells, and
// so is what it has at opening after a crash.
ghost use Rattle.std.specs.Prelude.{◌≡◌, ◌⊎◌, ◌-◌, ◌^◌, false};
ghost use Rattle.sat_base.specs.Outside.{Counts};
ghost use Rattle.sat_base.specs.Rows.{Rows, AreInOrder, AreThe, changed};
ghost use Rattle.sat_base.specs.Keeper.{KeeperView, IfRows, CommitsTo, failed_load, failed_commit};

use crate::{Change, Items, Row};
use std::alloc::Global;

/// What a load answers.
#[derive(Debug, PartialEq, Eq, Drop)]
pub enum Loaded {
    /// All rows, in the order of their keys.
    Rows(Items<Row>),
    /// The load failed.
    Fault,
    /// There was no memory for the rows.
    NoMemory,
}

/// What a commit answers.
#[derive(Clone, Copy, Debug, PartialEq, Eq)]
pub enum Committed {
    /// The changes are made, and stay through a crash.
    Done,
    /// The commit failed, and none of the changes is made.
    Fault,
    /// There was no memory, and none of the changes is made.
    NoMemory,
}

/// What keeps rows, each key once, in memory or on a disk.
///
/// A keeper on a disk can't always tell what it keeps: others may have written there, or the disk
/// have answered wrongly, or a failure have shut it. So each clause goes from what stood before a call
/// to what stands after it, under the premises that it names.
pub trait Keeper: Drop {
    /// What contracts see of it.
    ghost about: { Self → KeeperView };

    /// Reads all rows. They stand in the order of their keys even where the keeper doesn't tell.
    fn load(&mut self, alloc: Global) -> Loaded
        ensures ordered { IfRows result AreInOrder }
        ensures clean { (about self.new).is_clean → (about self.old).is_clean }
        ensures opened { (about self.new).is_open → (about self.old).is_open }
        ensures told { (about self.new).is_open → (about self.old).tells → (about self.new).tells }
        ensures kept { (about self.new).is_open → (about self.old).tells → (about self.new).rows ≡ (about self.old).rows }
        ensures rows { (about self.new).is_open → (about self.old).tells → IfRows result (AreThe (about self.old).rows) }
        ensures crash { (about self.new).is_clean → (m : Rows) → (about self.new).leaves m → (about self.old).leaves m }
        ensures faults { Counts (failed_load result) (about self.old).faults (about self.new).faults }
        ensures steady { failed_load result ≡ false → (about self.new).faults ≡ (about self.old).faults }
        ensures last { (about self.old).faults ≡ 2 ^ 64 - 1 → (about self.new).faults ≡ 2 ^ 64 - 1 };

    /// Makes the changes in order, all of them or none. A crash within it leaves the rows as they were
    /// or with all changes made, and so does a commit that failed. One that is done shows that nothing had
    /// shut the keeper, also where there were no changes.
    fn commit(&mut self, alloc: Global, changes: &[Change]) -> Committed
        ensures clean { (about self.new).is_clean → (about self.old).is_clean }
        ensures opened { (about self.new).is_open → (about self.old).is_open }
        ensures told { (about self.new).is_open → (about self.old).tells → (about self.new).tells }
        ensures rows { (about self.new).is_open → (about self.old).tells
            → CommitsTo result (about self.old).rows (changed changes.now (about self.old).rows) (about self.new).rows }
        ensures crash { (about self.new).is_clean → (m : Rows) → (about self.new).leaves m → (about self.old).leaves m
            ⊎ ((about self.old).is_open × ((about self.old).tells → m ≡ changed changes.now (about self.old).rows)) }
        ensures open { result ≡ Committed.Done → (about self.new).is_clean → (about self.new).is_open }
        ensures faults { Counts (failed_commit result) (about self.old).faults (about self.new).faults }
        ensures steady { failed_commit result ≡ false → (about self.new).faults ≡ (about self.old).faults }
        ensures last { (about self.old).faults ≡ 2 ^ 64 - 1 → (about self.new).faults ≡ 2 ^ 64 - 1 };

    /// Whether a failure has shut it, so that no commit will be done. It may look at the disk, and changes no row.
    fn is_shut(&mut self) -> bool
        ensures clean { (about self.new).is_clean → (about self.old).is_clean }
        ensures opened { (about self.new).is_open → (about self.old).is_open }
        ensures told { (about self.new).is_open → (about self.old).tells → (about self.new).tells }
        ensures kept { (about self.new).is_open → (about self.old).tells → (about self.new).rows ≡ (about self.old).rows }
        ensures crash { (about self.new).is_clean → (m : Rows) → (about self.new).leaves m → (about self.old).leaves m }
        ensures faults { (about self.new).faults ≡ (about self.old).faults };

    /// How many calls have failed. It stands still at 2^64 - 1.
    fn count(&self) -> u64
        ensures { result ≡ (about self.now).faults };

    /// An open keeper that tells its rows leaves no others at a crash.
    ghost leaves_no_other: { (k : Self) (m : Rows) → (about k).is_open → (about k).tells → (about k).leaves m → m ≡ (about k).rows };

    /// And it leaves these.
    ghost leaves_its_rows: { (k : Self) → (about k).is_open → (about k).tells → (about k).leaves (about k).rows };
}

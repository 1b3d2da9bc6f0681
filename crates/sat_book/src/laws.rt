// The laws of rows, as contracts of functions that do nothing.
ghost use Rattle.std.specs.Prelude.{◌≡◌, ◌↔◌, ℕ, List, map, slice_get};
ghost use Rattle.machine_calls.specs.declared.change.RecChange.{RecChange};
ghost use Rattle.machine_step.specs.Tables.{Tables, all_changed};
ghost use Rattle.machine_step.specs.Bounds.{Each};
ghost use Rattle.machine_step.specs.Writable.{IsWritable};
ghost use Rattle.sat_base.specs.declared.rows.Row.{Row};
ghost use Rattle.sat_base.specs.declared.rows.Change.{Change};
ghost use Rattle.sat_base.specs.Rows.{AreInOrder, changed};
ghost use Rattle.record_rows.specs.declared.version.Version.{Version};
ghost use Rattle.record_rows.specs.declared.version.Version.TheVariants as versions;
ghost use Rattle.record_rows.specs.Versions.{HoldsSome, IsVersion};
ghost use Rattle.sat_book.specs.Changes.{row_change};
ghost use Rattle.sat_book.specs.Ids.{AreIds, HasId};
ghost use Rattle.sat_book.specs.Opened.{Becomes, IsFirstBad, IsSame, IsUpgraded};
ghost use Rattle.sat_book.specs.TableRows.{rows};
ghost use Rattle.sat_book.specs.Version1.{IsFirstBad1, IsUpgraded1};

use record_rows::versions_are_told_apart;

/// Rows follow records: the rows of tables after changes are the rows before them, with the row of each change changed.
/// Ids are within their types, and the changes are those that a store can be told.
pub fn rows_follow_changes()
    ensures { (t : Tables) (cs : List RecChange) → AreIds t → Each HasId cs → Each IsWritable cs
        → rows (all_changed t cs) ≡ changed (map row_change cs) (rows t) }
{}

/// What opening says of rows of version 1: their settings become those of version 2 and the tariff that stands behind all
/// others, by two changes, and the other rows stay. The first row that holds no record is the first that is none, those
/// settings aside; beside them a tariff is none. Rows of version 2 stay as they are.
pub fn for_version_1()
    ensures upgraded { (loaded rows : List Row) (changes : List Change) → IsVersion versions.One (slice_get loaded 0)
        → Becomes loaded changes rows → IsUpgraded1 loaded changes rows }
    ensures back { (loaded rows : List Row) (changes : List Change) → AreInOrder loaded → Each (HoldsSome versions.One) loaded
        → IsUpgraded1 loaded changes rows → IsUpgraded loaded changes rows }
    ensures same { (loaded rows : List Row) (changes : List Change) → IsVersion versions.Two (slice_get loaded 0)
        → Becomes loaded changes rows → IsSame loaded changes rows }
    ensures bad { (version : Version) (loaded : List Row) (kind : ℕ) (id : List ℕ) → AreInOrder loaded
        → IsVersion version (slice_get loaded 0) → IsFirstBad loaded kind id ↔ IsFirstBad1 loaded kind id }
{
    versions_are_told_apart();
}

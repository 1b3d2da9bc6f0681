// The laws of rows and records, as contracts of functions that do nothing.
ghost use Rattle.std.specs.Prelude.{◌≡◌, ◌↔◌, ◌++◌, ℕ, List, Option};
ghost use Rattle.std.specs.Ordering.{nat_cmp};
ghost use Rattle.std.specs.Cmp.Lexicographic.{slice_cmp};
ghost use Rattle.sat_base.specs.declared.rows.Row.{Row};
ghost use Rattle.record_kinds.specs.declared.rec.Rec.{Rec};
ghost use Rattle.record_rows.specs.declared.version.Version.{Version};
ghost use Rattle.record_kinds.specs.Kinds.{kind_of};
ghost use Rattle.record_rows.specs.Spelling.{id_of, body_of, row_of};
ghost use Rattle.record_rows.specs.Fits.{Fits};
ghost use Rattle.record_rows.specs.Ranks.{rank_of};
ghost use Rattle.record_rows.specs.Reading.{IsRowOf};
ghost use Rattle.record_rows.specs.Versions.{Implies, IsRecordIn, IsVersion};
ghost use Rattle.record_rows.specs.Laws.{IsToldApart};

use crate::kind::Kind;
use crate::version::Version;
use audit_core::{AuditPlan, RecheckPlan};
use node_registry::{Left, Node};
use repair_core::{ExitPlan, RepairPlan};
use sat_base::{Containment, Customer, Kept, Marks, Settings, Tariff};
use segment_core::Segment;
use settlement::SettledRow;
use tally_payout::{Statement, Tally};

// The records of a kind are told apart.
fn kind_is_told_apart<K: Kind>()
    ensures { IsToldApart K.KIND }
{}

// The records of each kind are told apart.
fn kinds_are_told_apart()
    ensures { (rec : Rec) → IsToldApart (kind_of rec) }
{
    kind_is_told_apart::<Settings>();
    kind_is_told_apart::<Marks>();
    kind_is_told_apart::<Node>();
    kind_is_told_apart::<Customer>();
    kind_is_told_apart::<Segment>();
    kind_is_told_apart::<SettledRow>();
    kind_is_told_apart::<Tally>();
    kind_is_told_apart::<Statement>();
    kind_is_told_apart::<AuditPlan>();
    kind_is_told_apart::<RecheckPlan>();
    kind_is_told_apart::<RepairPlan>();
    kind_is_told_apart::<Containment>();
    kind_is_told_apart::<Kept>();
    kind_is_told_apart::<ExitPlan>();
    kind_is_told_apart::<Left>();
    kind_is_told_apart::<Tariff>();
}

/// The law of rows: a row is that of one record.
pub fn one_record_a_spelling()
    ensures { (x y : Rec) → Fits x → Fits y → row_of x ≡ row_of y → x ≡ y }
{
    kinds_are_told_apart();
}

/// The law of fronts: of the ids and the bodies of a kind, none is a front of another.
pub fn no_spelling_is_a_front()
    ensures ids { (x y : Rec) (r s : List ℕ) → Fits x → Fits y → kind_of x ≡ kind_of y
        → id_of x ++ r ≡ id_of y ++ s → (id_of x ≡ id_of y) × (r ≡ s) }
    ensures bodies { (x y : Rec) (r s : List ℕ) → Fits x → Fits y → kind_of x ≡ kind_of y
        → body_of x ++ r ≡ body_of y ++ s → (body_of x ≡ body_of y) × (r ≡ s) }
{
    kinds_are_told_apart();
}

/// The law of order: within a kind, ids stand byte by byte as the records do by their ranks.
pub fn ids_stand_in_order()
    ensures { (x y : Rec) → Fits x → Fits y → kind_of x ≡ kind_of y
        → slice_cmp nat_cmp (id_of x) (id_of y) ≡ nat_cmp (rank_of x) (rank_of y) }
{
    kinds_are_told_apart();
}

/// The law of versions: a store has one. A row holds one record at most, within the bounds, of its kind and its id, and
/// implies one more at most. In the latest its record is that which [`read`](crate::read) gives, and it implies none.
pub fn versions_are_told_apart()
    ensures one { (first : Option Row) (v w : Version) → IsVersion v first → IsVersion w first → v ≡ w }
    ensures holds { (v : Version) (row : Row) (x y : Rec) → IsRecordIn v row x → IsRecordIn v row y → x ≡ y }
    ensures keyed { (v : Version) (row : Row) (x : Rec) → IsRecordIn v row x
        → Fits x × (kind_of x ≡ row.kind) × (id_of x ≡ row.id) }
    ensures implies { (v : Version) (row : Row) (x y : Rec) → Implies v row x → Implies v row y → x ≡ y }
    ensures within { (v : Version) (row : Row) (x : Rec) → Implies v row x → Fits x }
    ensures latest { (row : Row) (x : Rec) → IsRecordIn Version.LATEST row x ↔ IsRowOf row x }
    ensures no_more { (row : Row) (x : Rec) → Implies Version.LATEST row x → ⊥ }
{
    kinds_are_told_apart();
}

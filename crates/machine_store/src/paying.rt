// What pay goes by, as segments, orders, tallies and statements change. The laws of `pay_tables` that are called do
// nothing: their contracts tell why the other calls may be made.
ghost use Rattle.std.specs.Prelude.{◌≡◌, ◌*◌, true, List, OnOk};
ghost use Rattle.sat_base.specs.Moments.{IsMoment};
ghost use Rattle.rows.specs.Rows.{Each, without};
ghost use Rattle.rows.specs.Slots.{with_row};
ghost use Rattle.segment_core.specs.Record.{segment_rank};
ghost use Rattle.segment_index.specs.Indexed.{IsReleased, HasNoMoreRoom};
ghost use Rattle.settlement.specs.declared.row.SettledRow.{SettledRow};
ghost use Rattle.tally_payout.specs.Ranks.{month_place, tally_rank};
ghost use Rattle.month_pay.specs.Months.{month_of_hour};
ghost use Rattle.month_sums.specs.Open.{open_rank};
ghost use Rattle.machine_calls.specs.declared.change.RecChange.{RecChange};
ghost use Rattle.machine_step.specs.Bounds.{IsSetupWithin};
ghost use Rattle.machine_step.specs.Tables.{removed, changed, setup_of};
ghost use Rattle.pay_tables.specs.Amounts.{balance_rank};
ghost use Rattle.pay_tables.specs.InStep.{IsInStep, IsShort};
ghost use Rattle.pay_tables.specs.Placed.{ArePiecesPlaced, IsFreed, HasNoMoreSlots, KeepsPlaces, KeepsRows};
ghost use Rattle.machine_store.specs.Freed.{IsTight, IsPaidFreed, HasNoMoreRooms};
ghost use Rattle.machine_store.specs.Store.{tables_of, KeepsStep, GoesByTables, IsPlaceable, IsPlaced, spares};

use crate::steps::{place_row, put_row};
use crate::store::Store;
use machine_calls::RecChange;
use pay_tables::{
    PayTables, a_segment_in_place_of_another, a_segment_that_is_there_is_stored, live_bytes,
    open_sums_are_small, rows_that_stay_stay_in_step, stored_bytes_have_room,
};
use sat_base::{Key, NoMemory, SegId, Settings, limits};
use segment_core::Segment;
use segment_index::SegmentIndex;
use settlement::SettledRow;
use tally_payout::{Statement, Tally};

// The hour of the last moment.
const LAST_TIMED_HOUR: u64 = (limits::MOMENTS - 1) / 3600;

// Makes room for a segment.
pub(crate) fn place_segment(store: &mut Store, segment: &Segment) -> Result<(), NoMemory>
    requires placeable { IsPlaceable (tables_of store.old) (RecChange.Segment segment.now) }
    requires own { GoesByTables store.old }
    ensures tables { tables_of store.new ≡ tables_of store.old }
    ensures own { GoesByTables store.new }
    ensures placed { OnOk result (IsPlaced store.new (RecChange.Segment segment.now)) }
    ensures keeps { OnOk result ((c : RecChange) → IsPlaced store.old c → IsPlaced store.new c) }
    ensures losses { store.new.segments.room.lost ≡ store.old.segments.room.lost }
{
    rows_that_stay_stay_in_step();
    store.segments.place(segment)?;
    store.pay.place_pieces(segment.pieces.as_slice())?;
    Ok(())
}

// Makes room for a settled order.
pub(crate) fn place_settled(store: &mut Store, row: &SettledRow) -> Result<(), NoMemory>
    requires placeable { IsPlaceable (tables_of store.old) (RecChange.SettledRow row.now) }
    requires own { GoesByTables store.old }
    ensures tables { tables_of store.new ≡ tables_of store.old }
    ensures own { GoesByTables store.new }
    ensures placed { OnOk result (IsPlaced store.new (RecChange.SettledRow row.now)) }
    ensures keeps { OnOk result ((c : RecChange) → IsPlaced store.old c → IsPlaced store.new c) }
    ensures losses { store.new.segments.room.lost ≡ store.old.segments.room.lost }
{
    rows_that_stay_stay_in_step();
    place_row(&mut store.settled, row)?;
    store.pay.place_order(row)?;
    Ok(())
}

// Makes room for a tally.
pub(crate) fn place_tally(store: &mut Store, tally: &Tally) -> Result<(), NoMemory>
    requires placeable { IsPlaceable (tables_of store.old) (RecChange.Tally tally.now) }
    requires own { GoesByTables store.old }
    ensures tables { tables_of store.new ≡ tables_of store.old }
    ensures own { GoesByTables store.new }
    ensures placed { OnOk result (IsPlaced store.new (RecChange.Tally tally.now)) }
    ensures keeps { OnOk result ((c : RecChange) → IsPlaced store.old c → IsPlaced store.new c) }
    ensures losses { store.new.segments.room.lost ≡ store.old.segments.room.lost }
{
    rows_that_stay_stay_in_step();
    store.pay.place_tally(tally)?;
    Ok(())
}

// Makes room for a statement.
pub(crate) fn place_statement(store: &mut Store, statement: &Statement) -> Result<(), NoMemory>
    requires placeable { IsPlaceable (tables_of store.old) (RecChange.Statement statement.now) }
    requires own { GoesByTables store.old }
    ensures tables { tables_of store.new ≡ tables_of store.old }
    ensures own { GoesByTables store.new }
    ensures placed { OnOk result (IsPlaced store.new (RecChange.Statement statement.now)) }
    ensures keeps { OnOk result ((c : RecChange) → IsPlaced store.old c → IsPlaced store.new c) }
    ensures losses { store.new.segments.room.lost ≡ store.old.segments.room.lost }
{
    rows_that_stay_stay_in_step();
    store.pay.place_statement(statement)?;
    Ok(())
}

// Takes the bytes of a segment's pieces, if it is there, off what their nodes store.
fn lower_segment(pay: &mut PayTables, settings: &Settings, segments: &SegmentIndex, id: SegId)
    requires { KeepsStep (setup_of settings.now) segments.now.rows pay.old }
    ensures tallies { pay.new.tallies.rows ≡ pay.old.tallies.rows }
    ensures statements { pay.new.statements.rows ≡ pay.old.statements.rows }
    ensures places { KeepsPlaces pay.old pay.new }
    ensures step { (settled : List SettledRow) → IsInStep (setup_of settings.now) segments.now.rows settled pay.old
        → IsInStep (setup_of settings.now) (without segment_rank segments.now.rows id.0) settled pay.new }
{
    a_segment_that_is_there_is_stored();
    let _rows = segments.len();
    if let Some(old) = segments.get(id) {
        let bytes = live_bytes(settings, old);
        pay.lower(old.pieces.as_slice(), bytes);
    }
}

// Adds the bytes of a segment's pieces to what their nodes store, where the one of its id, if there is one, was taken
// off.
fn raise_segment(
    pay: &mut PayTables,
    settings: &Settings,
    segments: &SegmentIndex,
    segment: &Segment,
)
    requires setup { IsSetupWithin (setup_of settings.now) }
    requires placed { ArePiecesPlaced pay.old segment.now.pieces }
    requires short { IsShort segment.now }
    requires step { KeepsStep (setup_of settings.now) (without segment_rank segments.now.rows segment.now.id.0) pay.old }
    ensures tallies { pay.new.tallies.rows ≡ pay.old.tallies.rows }
    ensures statements { pay.new.statements.rows ≡ pay.old.statements.rows }
    ensures places { KeepsPlaces pay.old pay.new }
    ensures step { (settled : List SettledRow)
        → IsInStep (setup_of settings.now) (without segment_rank segments.now.rows segment.now.id.0) settled pay.old
        → IsInStep (setup_of settings.now) (with_row segment_rank segments.now.rows segment.now) settled pay.new }
{
    stored_bytes_have_room();
    a_segment_in_place_of_another();
    let _rows = segments.len();
    let bytes = live_bytes(settings, segment);
    pay.raise(segment.pieces.as_slice(), bytes);
}

// Puts a segment, in place of the one of its id if there is one.
pub(crate) fn put_segment(store: &mut Store, segment: Segment)
    requires placed { IsPlaced store.old (RecChange.Segment segment) }
    requires own { GoesByTables store.old }
    ensures tables { tables_of store.new ≡ changed (tables_of store.old) (RecChange.Segment segment) }
    ensures own { GoesByTables store.new }
    ensures keeps { (c : RecChange) → spares (RecChange.Segment segment) c ≡ true → IsPlaced store.old c → IsPlaced store.new c }
    ensures losses { store.new.segments.room.lost ≡ store.old.segments.room.lost }
{
    lower_segment(&mut store.pay, &store.settings, &store.segments, segment.id);
    raise_segment(&mut store.pay, &store.settings, &store.segments, &segment);
    store.segments.put(segment);
}

// Removes a segment.
pub(crate) fn remove_segment(store: &mut Store, id: SegId)
    requires { GoesByTables store.old }
    ensures tables { tables_of store.new ≡ removed (tables_of store.old) (Key.Segment id) }
    ensures own { GoesByTables store.new }
    ensures keeps { (c : RecChange) → spares (RecChange.Remove (Key.Segment id)) c ≡ true → IsPlaced store.old c → IsPlaced store.new c }
    ensures losses { store.new.segments.room.lost ≡ store.old.segments.room.lost }
{
    lower_segment(&mut store.pay, &store.settings, &store.segments, id);
    store.segments.remove(id);
}

// Adds a settled order, and counts it.
pub(crate) fn put_settled(store: &mut Store, row: SettledRow)
    requires placed { IsPlaced store.old (RecChange.SettledRow row) }
    requires own { GoesByTables store.old }
    ensures tables { tables_of store.new ≡ changed (tables_of store.old) (RecChange.SettledRow row) }
    ensures own { GoesByTables store.new }
    ensures keeps { (c : RecChange) → spares (RecChange.SettledRow row) c ≡ true → IsPlaced store.old c → IsPlaced store.new c }
    ensures losses { store.new.segments.room.lost ≡ store.old.segments.room.lost }
{
    open_sums_are_small();
    store.pay.count_order(&row);
    put_row(&mut store.settled, row);
}

// Puts a tally, and counts it.
pub(crate) fn put_tally(store: &mut Store, tally: Tally)
    requires placed { IsPlaced store.old (RecChange.Tally tally) }
    requires own { GoesByTables store.old }
    ensures tables { tables_of store.new ≡ changed (tables_of store.old) (RecChange.Tally tally) }
    ensures own { GoesByTables store.new }
    ensures keeps { (c : RecChange) → spares (RecChange.Tally tally) c ≡ true → IsPlaced store.old c → IsPlaced store.new c }
    ensures losses { store.new.segments.room.lost ≡ store.old.segments.room.lost }
{
    open_sums_are_small();
    store.pay.put_tally(tally);
}

// Puts a statement and its pot.
pub(crate) fn put_statement(store: &mut Store, statement: Statement)
    requires placed { IsPlaced store.old (RecChange.Statement statement) }
    requires own { GoesByTables store.old }
    ensures tables { tables_of store.new ≡ changed (tables_of store.old) (RecChange.Statement statement) }
    ensures own { GoesByTables store.new }
    ensures keeps { (c : RecChange) → spares (RecChange.Statement statement) c ≡ true → IsPlaced store.old c → IsPlaced store.new c }
    ensures losses { store.new.segments.room.lost ≡ store.old.segments.room.lost }
{
    store.pay.put_statement(statement);
}

// Gives back the room of a segment in the index, and that for the bytes of its pieces.
fn release_segment(segments: &mut SegmentIndex, pay: &mut PayTables, segment: &Segment)
    ensures index { segments.new ≡ record segments.old { room = segments.new.room } }
    ensures rows { KeepsRows pay.old pay.new }
    ensures released { IsReleased segments.new segment.now }
    ensures bytes { Each (λ piece. IsTight balance_rank pay.new.stored piece.node.0) segment.now.pieces }
    ensures room { HasNoMoreRoom segments.old.room segments.new.room }
    ensures slots { HasNoMoreSlots pay.old pay.new }
{
    segments.release(segment);
    pay.release_pieces(segment.pieces.as_slice());
}

// Gives back the room of a tally. None was made for one past the last moment.
fn release_tally(pay: &mut PayTables, tally: &Tally)
    ensures rows { KeepsRows pay.old pay.new }
    ensures fewer { HasNoMoreSlots pay.old pay.new }
    ensures row { IsMoment (tally.now.hour.0 * 3600) → IsFreed tally_rank pay.old.tallies pay.new.tallies (tally_rank tally.now) }
    ensures sum { IsMoment (tally.now.hour.0 * 3600) → IsFreed open_rank pay.old.sums pay.new.sums (month_place (month_of_hour tally.now.hour.0) tally.now.node.0) }
{
    if tally.hour.0 <= LAST_TIMED_HOUR {
        pay.release_tally(tally);
    }
}

// Gives back the room of what pay goes by, where there is no such record.
pub(crate) fn release_paid(store: &mut Store, change: &RecChange)
    ensures tables { tables_of store.new ≡ tables_of store.old }
    ensures own { GoesByTables store.old → GoesByTables store.new }
    ensures index { store.new.segments ≡ record store.old.segments { room = store.new.segments.room } }
    ensures rows { KeepsRows store.old.pay store.new.pay }
    ensures freed { IsPaidFreed store.new change.now }
    ensures fewer { HasNoMoreRooms store.old store.new }
{
    rows_that_stay_stay_in_step();
    match change {
        RecChange::Segment(segment) => {
            release_segment(&mut store.segments, &mut store.pay, segment)
        }
        RecChange::SettledRow(row) => store.pay.release_order(row),
        RecChange::Tally(tally) => release_tally(&mut store.pay, tally),
        RecChange::Statement(statement) => store.pay.release_statement(statement),
        _ => {}
    }
}

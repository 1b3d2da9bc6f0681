ghost use Rattle.std.specs.Prelude.{◌≡◌, ℕ, true, false, length, option_copied, IfOk, OnOk, OnErr, IsSome, is_ok, slice_get, if◌then◌else◌, None, Some};
ghost use Rattle.std.specs.Ordering.{nat_cmp};
ghost use Rattle.std.specs.BTreeMap.{insert_entry, get, keys, is_at};
ghost use Rattle.std.specs.Map.{remove_entry};
ghost use Rattle.rows.specs.Rows.{row_at, first_above, without, IsRising};
ghost use Rattle.rows.specs.Entries.{kept, flat, taken};
ghost use Rattle.rows.specs.Slots.{no_rows, has_slot, with_row, with_slot, without_slot, released};

use crate::copying::rows_of;
use sat_base::{NoMemory, Ranked};
use std::alloc::Global;
use std::collections::BTreeMap;
use std::collections::btree_map::Range;
use std::marker::Model;
use std::ops::Bound;

/// Rows in the order of their ranks, at most one of a rank, and slots for rows to come.
///
/// Contracts see the list of the rows, and the ranks that have a slot, among them those of the rows. Each call
/// costs the logarithm of the slots.
#[derive(Drop)]
pub struct SlottedRows<R: Ranked> {
    map: BTreeMap<u128, Option<R>>,
    count: usize,
}

impl<R: Ranked> Model for SlottedRows<R> {
    ghost use Rattle.rows.specs.Slots.{Slots};

    ghost Value = { Slots R };

    ghost use Rattle.rows.specs.Entries.{slots_of, Fits};

    ghost view = { λ t. slots_of t.map.entries };

    ghost invariant = { λ t. Fits R.rank t.map.entries t.count };
}

impl<R: Ranked> SlottedRows<R> {
    /// No rows, and no slots.
    pub fn new(alloc: Global) -> Self
        ensures { result ≡ no_rows }
    {
        SlottedRows {
            map: BTreeMap::new(alloc),
            count: 0,
        }
    }

    /// These rows, which stand in the order of their ranks.
    pub fn of(alloc: Global, rows: Vec<R>) -> Result<Self, NoMemory>
        requires { IsRising R.rank rows.items }
        ensures { IfOk result (λ slots. slots.rows ≡ rows.items) }
    {
        let mut slots = SlottedRows::new(alloc);
        for row in rows {
            slots.place(row.rank())?;
            slots.put(row);
        }
        Ok(slots)
    }

    /// How many rows there are.
    pub fn len(&self) -> usize
        ensures rows { result ≡ length self.now.rows }
        ensures rising { IsRising R.rank self.now.rows }
    {
        self.count
    }

    /// The row of a rank.
    pub fn get(&self, rank: u128) -> Option<&R>
        ensures { option_copied result ≡ row_at R.rank self.now.rows rank }
    {
        row_of(self.map.get(&rank))
    }

    /// The first row. It passes over the slots before it.
    pub fn first(&self) -> Option<&R>
        ensures row { option_copied result ≡ slice_get self.now.rows 0 }
        ensures rising { IsRising R.rank self.now.rows }
    {
        first_row(self.map.range(..))
    }

    /// The first row above a rank. It passes over the slots between.
    pub fn after(&self, rank: u128) -> Option<&R>
        ensures row { option_copied result ≡ first_above R.rank self.now.rows rank }
        ensures rising { IsRising R.rank self.now.rows }
    {
        first_row(self.map.range((Bound::Excluded(rank), Bound::Unbounded)))
    }

    /// Makes a slot for a rank, if it has none. Running out of memory leaves rows and slots as they were.
    pub fn place(&mut self, rank: u128) -> Result<(), NoMemory>
        ensures rows { self.new.rows ≡ self.old.rows }
        ensures placed { OnOk result (has_slot self.new rank ≡ true) }
        ensures others { (k : ℕ) → has_slot self.old k ≡ true → has_slot self.new k ≡ true }
        ensures slots { OnOk result (self.new.slots ≡ with_slot self.old.slots rank) }
        // A slot that this made is gone again after a release.
        ensures undone { OnOk result (has_slot self.old rank ≡ false → released self.new rank ≡ self.old) }
        ensures err { OnErr result (self.new ≡ self.old) }
    {
        if self.map.contains_key(&rank) {
            return Ok(());
        }
        add_slot(&mut self.map, rank)
    }

    /// Puts a row into its slot, in place of the row of its rank if there is one. It takes no memory.
    pub fn put(&mut self, row: R)
        requires { has_slot self.old (R.rank row) ≡ true }
        ensures rows { self.new.rows ≡ with_row R.rank self.old.rows row }
        ensures slots { self.new.slots ≡ self.old.slots }
    {
        let key = row.rank();
        let _slots = self.map.len();
        self.count += 1;
        self.count -= fill_slot(&mut self.map, key, row);
    }

    /// Removes the row of a rank, if there is one, and the slot with it. It takes no memory.
    pub fn remove(&mut self, rank: u128)
        ensures rows { self.new.rows ≡ without R.rank self.old.rows rank }
        ensures slots { self.new.slots ≡ without_slot self.old.slots rank }
        ensures gone { has_slot self.new rank ≡ false }
        ensures others { (k : ℕ) → has_slot self.old k ≡ true → (k ≡ rank → ⊥) → has_slot self.new k ≡ true }
    {
        self.count -= drop_entry(&mut self.map, rank);
    }

    /// Removes the slot of a rank, where it has no row. It takes no memory.
    pub fn release(&mut self, rank: u128)
        ensures rows { self.new.rows ≡ self.old.rows }
        ensures gone { row_at R.rank self.old.rows rank ≡ None → has_slot self.new rank ≡ false }
        ensures others { (k : ℕ) → has_slot self.old k ≡ true → (k ≡ rank → ⊥) → has_slot self.new k ≡ true }
        ensures released { row_at R.rank self.old.rows rank ≡ None → self.new ≡ released self.old rank }
        ensures kept { IsSome (row_at R.rank self.old.rows rank) → self.new ≡ self.old }
    {
        if self.get(rank).is_none() {
            let _none = drop_entry(&mut self.map, rank);
        }
    }
}

impl<R: Ranked + Copy> SlottedRows<R> {
    /// The rows again, in the order of their ranks.
    pub fn copied(&self, alloc: Global) -> Result<Vec<R>, NoMemory>
        ensures rows { IfOk result (λ rows. rows.items ≡ self.now.rows) }
        ensures rising { IfOk result (λ rows. IsRising R.rank rows.items) }
    {
        let rows = rows_of(alloc, &self.map)?;
        Ok(rows)
    }
}

// The row at a slot.
fn row_of<R>(at: Option<&Option<R>>) -> Option<&R>
    ensures { option_copied result ≡ flat (option_copied at.entry) }
{
    match at {
        Some(Some(row)) => Some(row),
        _ => None,
    }
}

// The first row of a part of the slots.
fn first_row<'a, R>(slots: Range<'a, u128, Option<R>>) -> Option<&'a R>
    ensures { option_copied result ≡ slice_get (kept slots.entry) 0 }
{
    for (_, slot) in slots {
        if let Some(row) = slot {
            return Some(row);
        }
    }
    None
}

// How many rows were at a slot.
fn count_of<R: Drop>(was: Option<Option<R>>) -> usize
    ensures { result ≡ taken was }
{
    match was {
        Some(Some(_)) => 1,
        _ => 0,
    }
}

// A slot of a rank that has none yet.
fn add_slot<R: Drop>(map: &mut BTreeMap<u128, Option<R>>, rank: u128) -> Result<(), NoMemory>
    requires { get nat_cmp map.old rank ≡ None }
    ensures entries { map.new.entries ≡ (if is_ok result then insert_entry nat_cmp map.old.entries rank None else map.old.entries) }
{
    match map.insert(rank, None) {
        Ok(was) => {
            let _none = count_of(was);
            Ok(())
        }
        Err(_) => Err(NoMemory),
    }
}

// A row in its slot. Tells how many rows it takes the place of.
fn fill_slot<R: Drop>(map: &mut BTreeMap<u128, Option<R>>, rank: u128, row: R) -> usize
    requires { IsSome (get nat_cmp map.old rank) }
    ensures entries { map.new.entries ≡ insert_entry nat_cmp map.old.entries rank (Some row) }
    ensures keys { keys map.new ≡ keys map.old }
    ensures taken { result ≡ taken (get nat_cmp map.old rank) }
{
    match map.insert(rank, Some(row)) {
        Ok(was) => count_of(was),
        Err(_) => unreachable!(),
    }
}

// Takes a slot away. Tells how many rows it had.
fn drop_entry<R: Drop>(map: &mut BTreeMap<u128, Option<R>>, rank: u128) -> usize
    ensures entries { map.new.entries ≡ remove_entry (is_at (nat_cmp rank)) map.old.entries }
    ensures taken { result ≡ taken (get nat_cmp map.old rank) }
{
    count_of(map.remove(&rank))
}

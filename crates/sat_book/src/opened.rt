// Opening: the rows are read, the machine made of them, room taken for the history, and only then rows of an earlier
// version replaced.
ghost use Rattle.std.specs.Prelude.{◌≡◌, ◌≤◌, [], List, IfOk, IfErr};
ghost use Rattle.std.specs.Vec.{vec_capacity};
ghost use Rattle.sat_base.specs.declared.limits.TheConstants as limits;
ghost use Rattle.sat_base.specs.declared.rows.Row.{Row};
ghost use Rattle.sat_base.specs.Keeper.{Loads};
ghost use Rattle.sat_book.specs.Opened.{AreSorted};
ghost use Rattle.sat_book.specs.Openings.{IsNone, IsReady, IsTaken, Puts, Refuses};

use crate::entry::Entry;
use crate::opening::OpenErr;
use crate::sorted::{Sorted, records_of};
use record_rows::ids_stand_in_order;
use sat_base::{Change, Committed, Items, Keeper, Loaded, NoMemory, Row};
use sat_machine::Core;
use std::alloc::Global;

// All but the keeper of a book.
#[derive(Drop)]
pub(crate) struct Ready {
    pub core: Core,
    pub history: Vec<Entry>,
    pub rows: Items<Row>,
    // what makes the rows of those that were loaded
    pub changes: Vec<Change>,
}

fn make_room(alloc: Global, term: u64) -> Result<Vec<Entry>, NoMemory>
    requires { term ≤ limits.TERM }
    ensures none { IfOk result (λ history. history.items ≡ []) }
    ensures room { IfOk result (λ history. term ≤ vec_capacity history) }
{
    Ok(Vec::with_capacity(alloc, term as usize)?)
}

// The machine of the records of rows.
fn make(alloc: Global, sorted: Sorted, term: u64) -> Result<Ready, OpenErr>
    requires sorted { (loaded : List Row) × AreSorted loaded sorted }
    requires term { term ≤ limits.TERM }
    ensures ok { (loaded : List Row) → AreSorted loaded sorted → IfOk result (IsReady loaded term) }
    ensures bad { (loaded : List Row) → AreSorted loaded sorted → IfErr result (IsNone loaded) }
{
    ids_stand_in_order();
    let Sorted {
        parts,
        rows,
        changes,
    } = sorted;
    let core = Core::new(alloc, parts)?;
    // the tables are valid
    let _marks = core.marks();
    let history = make_room(alloc, term)?;
    Ok(Ready {
        core,
        history,
        rows,
        changes,
    })
}

// All rows of the keeper.
fn load<K: Keeper>(alloc: Global, keeper: &mut K) -> Result<Items<Row>, OpenErr>
    ensures ok { IfOk result (Loads (K.about keeper.old) (K.about keeper.new)) }
    ensures bad { IfErr result (Refuses K.about keeper.old keeper.new) }
{
    match keeper.load(alloc) {
        Loaded::Rows(rows) => Ok(rows),
        Loaded::Fault => Err(OpenErr::Fault),
        Loaded::NoMemory => Err(OpenErr::NoMemory),
    }
}

// Makes the changes, if there are any.
fn put_all<K: Keeper>(alloc: Global, keeper: &mut K, changes: &[Change]) -> Result<(), OpenErr>
    ensures { Puts K.about changes.now keeper.old keeper.new result }
{
    if changes.is_empty() {
        return Ok(());
    }
    match keeper.commit(alloc, changes) {
        Committed::Done => Ok(()),
        Committed::Fault => Err(OpenErr::Fault),
        Committed::NoMemory => Err(OpenErr::NoMemory),
    }
}

// Makes a machine of the keeper's rows. Rows of an earlier version are replaced in the keeper, last of all.
pub(crate) fn make_ready<K: Keeper>(
    alloc: Global,
    keeper: &mut K,
    term: u64,
) -> Result<Ready, OpenErr>
    requires { term ≤ limits.TERM }
    ensures ok { IfOk result (IsTaken K.about keeper.old keeper.new term) }
    ensures bad { IfErr result (Refuses K.about keeper.old keeper.new) }
{
    let loaded = load(alloc, keeper)?;
    let sorted = records_of(alloc, loaded)?;
    let ready = make(alloc, sorted, term)?;
    put_all(alloc, keeper, &ready.changes)?;
    Ok(ready)
}

// A keeper of rows in memory.
use sat_base::{Bytes, Change, Committed, Items, Keeper, KeeperMem, Loaded, NoMemory, Row};
use std::alloc::Global;

// A keeper whose third and fifth call fail.
fn keeper(alloc: Global) -> Result<KeeperMem, NoMemory> {
    let failing = Vec::from_slice(alloc, &[3, 5])?;
    Ok(KeeperMem::of(Vec::new(alloc), failing))
}

fn byte(alloc: Global, byte: u8) -> Result<Bytes, NoMemory> {
    Ok(Bytes::of(Vec::from_slice(alloc, &[byte])?))
}

fn row(alloc: Global, [kind, id, body]: [u8; 3]) -> Result<Row, NoMemory> {
    let id = byte(alloc, id)?;
    let body = byte(alloc, body)?;
    Ok(Row { kind, id, body })
}

fn rows(alloc: Global, numbers: &[[u8; 3]]) -> Result<Vec<Row>, NoMemory> {
    let mut rows = Vec::new(alloc);
    for one in numbers {
        rows.push(row(alloc, *one)?)?;
    }
    Ok(rows)
}

fn puts(alloc: Global) -> Result<Vec<Change>, NoMemory> {
    let mut changes = Vec::new(alloc);
    for one in [[2, 1, 7], [1, 9, 8], [2, 0, 9], [2, 1, 6]] {
        changes.push(Change::Put(row(alloc, one)?))?;
    }
    Ok(changes)
}

fn removals(alloc: Global) -> Result<Vec<Change>, NoMemory> {
    let mut changes = Vec::new(alloc);
    for (kind, id) in [(2, 0), (1, 8)] {
        let id = byte(alloc, id)?;
        changes.push(Change::Remove { kind, id })?;
    }
    Ok(changes)
}

fn commits_puts(alloc: Global, keeper: &mut KeeperMem) -> Result<bool, NoMemory> {
    let changes = puts(alloc)?;
    Ok(keeper.commit(alloc, &changes) == Committed::Done)
}

fn loads_rows(alloc: Global, keeper: &mut KeeperMem) -> Result<bool, NoMemory> {
    let rows = rows(alloc, &[[1, 9, 8], [2, 0, 9], [2, 1, 6]])?;
    Ok(keeper.load(alloc) == Loaded::Rows(Items::of(rows)))
}

// Whether a commit fails once, and leaves three rows, and then is done.
fn commits_removals(alloc: Global, keeper: &mut KeeperMem) -> Result<bool, NoMemory> {
    let changes = removals(alloc)?;
    let failed = keeper.commit(alloc, &changes) == Committed::Fault && keeper.rows().len() == 3;
    Ok(failed && keeper.commit(alloc, &changes) == Committed::Done)
}

fn fails_to_load(alloc: Global, keeper: &mut KeeperMem) -> Result<bool, NoMemory> {
    let rows = rows(alloc, &[[1, 9, 8], [2, 1, 6]])?;
    let failed = keeper.load(alloc) == Loaded::Fault && keeper.count() == 2;
    Ok(failed && keeper.rows() == rows.as_slice())
}

fn loads_what_is_put(alloc: Global, keeper: &mut KeeperMem) -> bool {
    commits_puts(alloc, keeper) == Ok(true) && loads_rows(alloc, keeper) == Ok(true)
}

fn keeps_what_is_left(alloc: Global, keeper: &mut KeeperMem) -> bool {
    commits_removals(alloc, keeper) == Ok(true) && fails_to_load(alloc, keeper) == Ok(true)
}

fn keeps_rows(alloc: Global) -> Result<bool, NoMemory> {
    let mut keeper = keeper(alloc)?;
    Ok(loads_what_is_put(alloc, &mut keeper) && keeps_what_is_left(alloc, &mut keeper))
}

#[test]
fn keeps_rows_in_order_and_fails_where_it_is_told(rt: HostRuntime) {
    assert!(rt; keeps_rows(rt.alloc()) == Ok(true));
}

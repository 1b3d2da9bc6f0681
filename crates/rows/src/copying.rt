// The rows of a table of slots, passed over.
ghost use Rattle.std.specs.Prelude.{◌≡◌, IfOk};
ghost use Rattle.std.specs.BTreeMap.{values};
ghost use Rattle.rows.specs.Entries.{kept_values};

use sat_base::{NoMemory, Ranked};
use std::alloc::Global;
use std::collections::BTreeMap;

// The rows of the slots that have one.
pub(crate) fn rows_of<R: Ranked + Copy>(
    alloc: Global,
    map: &BTreeMap<u128, Option<R>>,
) -> Result<Vec<R>, NoMemory>
    ensures { IfOk result (λ rows. rows.items ≡ kept_values (values map.now)) }
{
    let mut rows = Vec::new(alloc);
    for slot in map.values() {
        if let Some(row) = slot {
            rows.push(*row)?;
        }
    }
    Ok(rows)
}

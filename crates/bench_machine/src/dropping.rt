// A keeper that has rows when it is opened, and drops what is committed, so that calls cost what the machine takes and the
// spelling of its rows.
ghost use Rattle.std.specs.Prelude.{◌≡◌, ◌-◌, []};
ghost use Rattle.sat_base.specs.Rows.{Rows, AreInOrder, rows_of};

use sat_base::{Change, Committed, Items, Keeper, KeeperMem, Loaded, NoMemory, Row};
use std::alloc::Global;
use std::marker::Model;
use std::mem;
use trial_lines::BoundedBook;

/// A book over such a keeper.
pub(crate) type Asked = BoundedBook<DroppingKeeper>;

/// A keeper that drops what is committed. It tells nothing, and never fails.
#[derive(Drop)]
pub(crate) struct DroppingKeeper {
    alloc: Global,
    // in the order of their keys
    rows: Vec<Row>,
}

impl Model for DroppingKeeper {
    ghost Value = { Unit {0} };

    ghost view = { λ _. tt };

    ghost invariant = { λ k. AreInOrder k.rows.items };
}

impl DroppingKeeper {
    /// A keeper of the rows that changes make.
    pub(crate) fn of(alloc: Global, changes: &[Change]) -> Result<DroppingKeeper, NoMemory> {
        let mut all = KeeperMem::of(Vec::new(alloc), Vec::new(alloc));
        if all.commit(alloc, changes) != Committed::Done {
            return Err(NoMemory);
        }
        match all.load(alloc) {
            Loaded::Rows(rows) => Ok(DroppingKeeper {
                alloc,
                rows: rows.into_vec(),
            }),
            Loaded::Fault | Loaded::NoMemory => Err(NoMemory),
        }
    }
}

impl Keeper for DroppingKeeper {
    ghost about = { λ _. record {
      faults = 0;
      is_clean = Unit {0};
      is_open = Unit {0};
      tells = ⊥;
      rows = rows_of [];
      leaves = λ _. ⊥;
    } };

    ghost leaves_no_other = { λ k m _ tells _. absurd tells };

    ghost leaves_its_rows = { λ k _ tells. absurd tells };

    fn load(&mut self, _alloc: Global) -> Loaded {
        let rows = mem::replace(&mut self.rows, Vec::new(self.alloc));
        Loaded::Rows(Items::of(rows))
    }

    fn commit(&mut self, _alloc: Global, _changes: &[Change]) -> Committed {
        Committed::Done
    }

    fn is_shut(&mut self) -> bool {
        false
    }

    fn count(&self) -> u64 {
        0
    }
}

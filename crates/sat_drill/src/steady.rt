// A keeper in memory that doesn't fail.
ghost use Rattle.std.specs.Prelude.{◌≡◌, refl};
ghost use Rattle.sat_base.specs.Rows.{rows_of};

use sat_base::{Change, Committed, Keeper, KeeperMem, Loaded};
use std::alloc::Global;
use std::marker::Model;

/// A keeper of rows in memory, which never fails but for lack of memory.
#[derive(Drop)]
pub(crate) struct Steady {
    keeper: KeeperMem,
}

impl Model for Steady {
    ghost use Rattle.std.specs.Prelude.{◌≡◌, []};
    ghost use Rattle.sat_base.specs.KeeperMem.{Keeping};

    ghost Value = { Keeping };

    ghost view = { λ s. s.keeper };

    ghost invariant = { λ s. (s.keeper.failing ≡ []) × (s.keeper.faults ≡ 0) };
}

impl Steady {
    /// A keeper of no rows.
    pub fn new(alloc: Global) -> Self {
        Steady {
            keeper: KeeperMem::of(Vec::new(alloc), Vec::new(alloc)),
        }
    }
}

impl Keeper for Steady {
    ghost about = { λ s. record {
      faults = 0;
      is_clean = Unit {0};
      is_open = Unit {0};
      tells = Unit {0};
      rows = rows_of s.rows;
      leaves = λ m. m ≡ rows_of s.rows;
    } };

    ghost leaves_no_other = { λ s m _ _ is. is };

    ghost leaves_its_rows = { λ s _ _. refl };

    fn load(&mut self, alloc: Global) -> Loaded {
        self.keeper.load(alloc)
    }

    fn commit(&mut self, alloc: Global, changes: &[Change]) -> Committed {
        self.keeper.commit(alloc, changes)
    }

    fn is_shut(&mut self) -> bool {
        self.keeper.is_shut()
    }

    fn count(&self) -> u64 {
        self.keeper.count()
    }
}

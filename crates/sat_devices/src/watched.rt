// A keeper whose loss ends the run.
ghost use Rattle.std.specs.Prelude.{◌≡◌, ◌⊎◌, ◌-◌, ◌^◌, false};
ghost use Rattle.sat_base.specs.Outside.{Counts};
ghost use Rattle.sat_base.specs.Rows.{Rows, AreInOrder, AreThe, changed};
ghost use Rattle.sat_base.specs.Keeper.{IfRows, CommitsTo, failed_load, failed_commit};

use sat_base::{Change, Committed, Keeper, Loaded, Service};
use std::alloc::Global;
use std::marker::Model;

/// A keeper that tells a service once no commit can be done any more: after each that failed it asks whether it is shut. A full
/// disk doesn't shut it, and a device that failed does, for this run.
///
/// It keeps, tells, leaves and counts what the keeper within it does.
#[derive(Drop)]
pub struct Watched<K> {
    keeper: K,
    service: Service,
}

impl<K> Model for Watched<K> {
    ghost Value = { K };

    ghost view = { λ w. w.keeper };
}

impl<K: Drop> Watched<K> {
    /// The keeper, watched for this service.
    pub fn of(keeper: K, service: Service) -> Watched<K>
        ensures { result ≡ keeper }
    {
        Watched { keeper, service }
    }

    /// The keeper within it.
    pub fn into_keeper(self) -> K
        ensures { result ≡ self }
    {
        let Watched { keeper, service: _ } = self;
        keeper
    }
}

impl<K: Keeper> Keeper for Watched<K> {
    ghost about = { K.about };

    ghost leaves_no_other = { K.leaves_no_other };

    ghost leaves_its_rows = { K.leaves_its_rows };

    fn load(&mut self, alloc: Global) -> Loaded {
        self.keeper.load(alloc)
    }

    fn commit(&mut self, alloc: Global, changes: &[Change]) -> Committed {
        let committed = self.keeper.commit(alloc, changes);
        if committed == Committed::Fault && self.keeper.is_shut() {
            self.service.lose_store();
        }
        committed
    }

    fn is_shut(&mut self) -> bool {
        self.keeper.is_shut()
    }

    fn count(&self) -> u64 {
        self.keeper.count()
    }
}

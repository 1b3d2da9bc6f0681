// Why no machine is made of records.
ghost use Rattle.std.specs.Prelude.{◌≡◌};
ghost use Rattle.machine_step.specs.Broken.{broken};
ghost use Rattle.machine_store.specs.Opening.{Names};

use sat_base::{Bytes, Items, NoMemory};
use std::alloc::Global;

/// Why no machine is made of records.
#[derive(Debug, PartialEq, Eq, Drop)]
pub enum CoreErr {
    /// The least table rule that is broken, and the first record that breaks it: the byte of its kind, and the bytes
    /// of its id.
    Rule { rule: u8, kind: u8, id: Bytes },
    /// There is no memory for the tables.
    NoMemory,
}

impl From<NoMemory> for CoreErr {
    ghost use Rattle.machine_store.specs.declared.opening.CoreErr.{CoreErr};

    ghost from_gives = { λ _ err. err ≡ CoreErr.NoMemory };

    fn from(_: NoMemory) -> Self {
        CoreErr::NoMemory
    }
}

// A broken rule, and the record that breaks it.
pub fn rule_err(alloc: Global, rule: u8, kind: u8, id: &[u8]) -> CoreErr
    ensures { Names result (broken rule kind id.now) }
{
    match Vec::from_slice(alloc, id) {
        Ok(id) => CoreErr::Rule {
            rule,
            kind,
            id: Items::of(id),
        },
        Err(_) => CoreErr::NoMemory,
    }
}

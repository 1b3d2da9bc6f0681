// Random words of the machine.
ghost use Rattle.std.specs.Prelude.{◌≡◌, None};

use sat_base::{Drawn, Words};
use std::marker::Model;
use std::random::RandomSource;

/// Words of the machine's source of random numbers, the system's. Contracts see the count of failed draws, up to
/// 2^64 - 1.
#[derive(Drop)]
pub struct MachineWords<R: RandomSource + Drop> {
    rt: R,
    faults: u64,
}

impl<R: RandomSource + Drop> Model for MachineWords<R> {
    ghost use Rattle.std.specs.Prelude.{ℕ};

    ghost Value = { ℕ };

    ghost view = { λ w. w.faults };
}

impl<R: RandomSource + Drop> MachineWords<R> {
    /// A source of which no draw has failed.
    pub fn new(rt: R) -> Self
        ensures { result ≡ 0 }
    {
        MachineWords { rt, faults: 0 }
    }

    /// How many draws have failed, up to 2^64 - 1.
    pub fn faults(&self) -> u64
        ensures { result ≡ self.now }
    {
        self.faults
    }
}

impl<R: RandomSource + Drop + Send> Words for MachineWords<R> {
    ghost left = { λ _. None };

    ghost faults = { λ w. w };

    fn word(&mut self) -> Drawn {
        let mut bytes = [0u8; 8];
        match self.rt.fill_bytes(&mut bytes) {
            Ok(()) => Drawn::Word(u64::from_be_bytes(bytes)),
            Err(_) => {
                self.faults = self.faults.saturating_add(1);
                Drawn::Failed
            }
        }
    }
}

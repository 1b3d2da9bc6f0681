// The command `init`.
ghost use Rattle.std.specs.Prelude.{◌≡◌, ◌⊎◌, ◌≤◌};
ghost use Rattle.sat_base.specs.Rows.{Rows};
ghost use Rattle.sat_console.specs.Run.{code_of};
ghost use Rattle.sat_init.specs.Init.{IsMade};
ghost use Rattle.satellite_cli.specs.Making.{Inits, key_text};

use hex::encode_to_slice;
use sat_base::{Clock, Keeper, Link, Words};
use sat_console::{Status, fault, say};
use sat_init::{InitErr, Setup, init};
use std::alloc::Global;

// `operator `, 64 digits and the end of the line.
const LINE: usize = 74;

// The line of the operator's key.
fn key_line(key: &[u8; 32]) -> [u8; LINE]
    ensures { result ≡ key_text key.now }
{
    let mut digits = [0u8; 64];
    let _all = encode_to_slice(key.as_slice(), &mut digits);
    let mut line = [b'\n'; LINE];
    line[..9].copy_from_slice(b"operator ");
    line[9..73].copy_from_slice(&digits);
    line
}

/// Makes a store in the keeper and writes the operator's key, or why there is none.
pub(crate) fn make_store<C: Link, K: Keeper, T: Clock, W: Words>(
    alloc: Global,
    setup: &Setup,
    console: &mut C,
    keeper: &mut K,
    clock: &mut T,
    words: &mut W,
) -> Status
    ensures inits { Inits setup.now (record {
      coming = T.coming clock.old;
      coming_after = T.coming clock.new;
      words = W.left words.old;
      words_after = W.left words.new;
    }) (code_of result) (C.about console.old) (C.about console.new) (K.about keeper.old).faults (K.about keeper.new).faults
        (W.faults words.old) (W.faults words.new) ((K.about keeper.new).is_open × (K.about keeper.old).tells) (K.about keeper.old).rows (K.about keeper.new).rows }
    ensures crash { (K.about keeper.new).is_clean → (m : Rows) → (K.about keeper.new).leaves m → (K.about keeper.old).leaves m
        ⊎ ((K.about keeper.old).is_open × IsMade setup.now (K.about keeper.old).tells (K.about keeper.old).rows m) }
    ensures opened { (K.about keeper.new).is_open → (K.about keeper.old).is_open }
    ensures told { (K.about keeper.new).is_open → (K.about keeper.old).tells → (K.about keeper.new).tells }
    ensures faults { (K.about keeper.old).faults ≤ (K.about keeper.new).faults }
{
    match init(alloc, setup, keeper, clock, words) {
        Ok(key) => {
            if say(console, &key_line(&key)) {
                Status::Ok
            } else {
                Status::SinkFault
            }
        }
        Err(InitErr::NotEmpty) => {
            say(console, b"error: refused store-not-empty\n");
            Status::Refused
        }
        Err(InitErr::StoreFault) => fault(console, Status::StoreFault),
        Err(InitErr::WordsFault) => fault(console, Status::WordsFault),
        Err(InitErr::NoMemory) => fault(console, Status::NoMemory),
    }
}

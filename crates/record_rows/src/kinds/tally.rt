// Kind 7: what a node keeps in an hour.
ghost use Rattle.std.specs.Prelude.{◌≡◌, refl};
ghost use Rattle.sat_base.specs.declared.kinds.TheConstants as kinds;
ghost use Rattle.record_kinds.specs.declared.rec.Rec.TheVariants as rec;
ghost use Rattle.record_rows.specs.Laws.Kinds.{the_tally};

use crate::coded::Spelled;
use crate::kind::Kind;
use record_kinds::Rec;
use sat_base::{Hour, NoMemory, NodeId, kinds};
use tally_payout::Tally;

impl Kind for Tally {
    type Id = (Hour, NodeId);

    type Body = u64;

    ghost KIND = { kinds.TALLY };

    const KIND: u8 = kinds::TALLY;

    ghost rec = { rec.Tally };

    ghost made = { λ (hour, node) bytes.
        rec.Tally (record { hour = hour; node = node; bytes = bytes }) };

    fn put_id(&self, out: &mut Vec<u8>) -> Result<(), NoMemory> {
        (self.hour, self.node).put(out)
    }

    fn put_body(&self, out: &mut Vec<u8>) -> Result<(), NoMemory> {
        self.bytes.put(out)
    }

    fn of(id: (Hour, NodeId), bytes: u64) -> Rec {
        let (hour, node) = id;
        Rec::Tally(Tally { hour, node, bytes })
    }

    ghost kind = { λ tally. refl };

    ghost parts = { record {
      row = λ id body. refl;
      ranked = λ id body. refl;
      parted = λ id body fits. ((fits.hour, fits.node), fits.bytes);
      joined = λ id body (hour, node) bytes.
          record { hour = hour; node = node; bytes = bytes };
      whole = λ rec is. let found = the_tally rec is in let x = found.0 in
          ((x.hour, x.node), x.bytes, found.1);
    } };
}

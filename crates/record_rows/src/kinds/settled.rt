// Kind 6: a settled order.
ghost use Rattle.std.specs.Prelude.{◌≡◌, refl};
ghost use Rattle.sat_base.specs.declared.kinds.TheConstants as kinds;
ghost use Rattle.record_kinds.specs.declared.rec.Rec.TheVariants as rec;
ghost use Rattle.record_rows.specs.Laws.Kinds.{the_settled, place_rank};

use crate::coded::Spelled;
use crate::kind::Kind;
use order_limits::Action;
use record_kinds::Rec;
use sat_base::{Moment, NoMemory, NodeId, Serial, kinds};
use settlement::SettledRow;

type Body = (Action, (u64, Moment));

impl Kind for SettledRow {
    type Id = (Serial, NodeId);

    type Body = Body;

    ghost KIND = { kinds.SETTLED_ROW };

    const KIND: u8 = kinds::SETTLED_ROW;

    ghost rec = { rec.SettledRow };

    ghost made = { λ (serial, node) (action, (amount, at)).
        rec.SettledRow (record {
          serial = serial;
          node = node;
          action = action;
          amount = amount;
          at = at;
        }) };

    fn put_id(&self, out: &mut Vec<u8>) -> Result<(), NoMemory> {
        (self.serial, self.node).put(out)
    }

    fn put_body(&self, out: &mut Vec<u8>) -> Result<(), NoMemory> {
        (self.action, (self.amount, self.at)).put(out)
    }

    fn of(id: (Serial, NodeId), body: Body) -> Rec {
        let (serial, node) = id;
        let (action, (amount, at)) = body;
        Rec::SettledRow(SettledRow {
            serial,
            node,
            action,
            amount,
            at,
        })
    }

    ghost kind = { λ row. refl };

    ghost parts = { record {
      row = λ id body. refl;
      ranked = λ id body. place_rank id.0 id.1;
      parted = λ id body fits. ((fits.serial, fits.node), (tt, (fits.amount, fits.at)));
      joined = λ id body (serial, node) (_, (amount, at)).
          record { serial = serial; node = node; amount = amount; at = at };
      whole = λ rec is. let found = the_settled rec is in let x = found.0 in
          ((x.serial, x.node), (x.action, (x.amount, x.at)), found.1);
    } };
}

// Kind 15: when a node left.
ghost use Rattle.std.specs.Prelude.{◌≡◌, refl};
ghost use Rattle.sat_base.specs.declared.kinds.TheConstants as kinds;
ghost use Rattle.record_kinds.specs.declared.rec.Rec.TheVariants as rec;
ghost use Rattle.record_rows.specs.Laws.Kinds.{the_left};

use crate::coded::Spelled;
use crate::kind::Kind;
use node_registry::Left;
use record_kinds::Rec;
use sat_base::{Moment, NoMemory, NodeId, kinds};

impl Kind for Left {
    type Id = NodeId;

    type Body = Moment;

    ghost KIND = { kinds.LEFT };

    const KIND: u8 = kinds::LEFT;

    ghost rec = { rec.Left };

    ghost made = { λ node at.
        rec.Left (record { node = node; at = at }) };

    fn put_id(&self, out: &mut Vec<u8>) -> Result<(), NoMemory> {
        self.node.put(out)
    }

    fn put_body(&self, out: &mut Vec<u8>) -> Result<(), NoMemory> {
        self.at.put(out)
    }

    fn of(node: NodeId, at: Moment) -> Rec {
        Rec::Left(Left { node, at })
    }

    ghost kind = { λ left. refl };

    ghost parts = { record {
      row = λ id body. refl;
      ranked = λ id body. refl;
      parted = λ id body fits. (fits.node, fits.at);
      joined = λ id body node at.
          record { node = node; at = at };
      whole = λ rec is. let found = the_left rec is in let x = found.0 in
          (x.node, x.at, found.1);
    } };
}

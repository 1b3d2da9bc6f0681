// Kind 12: a node that didn't answer an audit.
ghost use Rattle.std.specs.Prelude.{◌≡◌, refl};
ghost use Rattle.sat_base.specs.declared.kinds.TheConstants as kinds;
ghost use Rattle.record_kinds.specs.declared.rec.Rec.TheVariants as rec;
ghost use Rattle.record_rows.specs.Laws.Kinds.{the_containment};

use crate::coded::Spelled;
use crate::kind::Kind;
use record_kinds::Rec;
use sat_base::{Containment, NoMemory, NodeId, SegId, kinds};

type Body = (SegId, (u8, (u64, ([u8; 32], u8))));

impl Kind for Containment {
    type Id = NodeId;

    type Body = Body;

    ghost KIND = { kinds.CONTAINMENT };

    const KIND: u8 = kinds::CONTAINMENT;

    ghost rec = { rec.Containment };

    ghost made = { λ node (segment, (index, (stripe, (expect, tries)))).
        rec.Containment (record {
          node = node;
          segment = segment;
          index = index;
          stripe = stripe;
          expect = expect;
          tries = tries;
        }) };

    fn put_id(&self, out: &mut Vec<u8>) -> Result<(), NoMemory> {
        self.node.put(out)
    }

    fn put_body(&self, out: &mut Vec<u8>) -> Result<(), NoMemory> {
        let asked = (self.stripe, (self.expect, self.tries));
        (self.segment, (self.index, asked)).put(out)
    }

    fn of(node: NodeId, body: Body) -> Rec {
        let (segment, (index, (stripe, (expect, tries)))) = body;
        Rec::Containment(Containment {
            node,
            segment,
            index,
            stripe,
            expect,
            tries,
        })
    }

    ghost kind = { λ containment. refl };

    ghost parts = { record {
      row = λ id body. refl;
      ranked = λ id body. refl;
      parted = λ id body fits. (fits.node, (fits.segment, (fits.index, (fits.stripe, (fits.expect, fits.tries)))));
      joined = λ id body node (segment, (index, (stripe, (expect, tries)))).
          record { node = node; segment = segment; index = index; stripe = stripe; expect = expect; tries = tries };
      whole = λ rec is. let found = the_containment rec is in let x = found.0 in
          (x.node, (x.segment, (x.index, (x.stripe, (x.expect, x.tries)))), found.1);
    } };
}

// Kind 10: the open plan of asking a node again.
ghost use Rattle.std.specs.Prelude.{◌≡◌, [], refl};
ghost use Rattle.std.proofs.Common.{ap};
ghost use Rattle.sat_base.specs.declared.kinds.TheConstants as kinds;
ghost use Rattle.record_kinds.specs.declared.rec.Rec.TheVariants as rec;
ghost use Rattle.record_rows.specs.Numbers.{be32, be64};
ghost use Rattle.record_rows.specs.Laws.Apart.{four_first};
ghost use Rattle.record_rows.specs.Laws.Kinds.{the_recheck_plan};

use crate::coded::Spelled;
use crate::kind::Kind;
use audit_core::RecheckPlan;
use record_kinds::Rec;
use sat_base::{Moment, NoMemory, NodeId, SegId, Serial, kinds};

// Who is asked, and since when.
type Asking = (u64, (Serial, (Moment, NodeId)));

// What the node is asked for.
type Share = (SegId, (u8, (u64, [u8; 32])));

type Body = (Asking, Share);

impl Kind for RecheckPlan {
    type Id = ();

    type Body = Body;

    ghost KIND = { kinds.RECHECK_PLAN };

    const KIND: u8 = kinds::RECHECK_PLAN;

    ghost rec = { rec.RecheckPlan };

    ghost made = { λ _ ((plan, (serial, (issued, node))), (segment, (index, (stripe, expect)))).
        rec.RecheckPlan (record {
          plan = plan;
          serial = serial;
          issued = issued;
          node = node;
          segment = segment;
          index = index;
          stripe = stripe;
          expect = expect;
        }) };

    fn put_id(&self, _out: &mut Vec<u8>) -> Result<(), NoMemory> {
        Ok(())
    }

    fn put_body(&self, out: &mut Vec<u8>) -> Result<(), NoMemory> {
        let share = (self.segment, (self.index, (self.stripe, self.expect)));
        (self.plan, (self.serial, (self.issued, (self.node, share)))).put(out)
    }

    fn of(_id: (), body: Body) -> Rec {
        let (asking, share) = body;
        let (plan, (serial, (issued, node))) = asking;
        let (segment, (index, (stripe, expect))) = share;
        Rec::RecheckPlan(RecheckPlan {
            plan,
            serial,
            issued,
            node,
            segment,
            index,
            stripe,
            expect,
        })
    }

    ghost kind = { λ plan. refl };

    ghost parts = { record {
      row = λ id ((plan, (serial, (issued, node))), _). ap (λ bytes. record { kind = kinds.RECHECK_PLAN; id = []; body = bytes }) (four_first (be64 plan) (be64 serial.0) (be64 issued) (be32 node.0) _);
      ranked = λ id body. refl;
      parted = λ id body fits. (tt, ((fits.number, (fits.serial, (fits.issued, fits.node))), (fits.segment, (fits.index, (fits.stripe, fits.expect)))));
      joined = λ id body id_fits ((number, (serial, (issued, node))), (segment, (index, (stripe, expect)))).
          record { number = number; serial = serial; issued = issued; node = node; segment = segment; index = index; stripe = stripe; expect = expect };
      whole = λ rec is. let found = the_recheck_plan rec is in let x = found.0 in
          (tt, ((x.plan, (x.serial, (x.issued, x.node))), (x.segment, (x.index, (x.stripe, x.expect)))), found.1);
    } };
}

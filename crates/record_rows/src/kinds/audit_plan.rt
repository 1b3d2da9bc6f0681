// Kind 9: the open plan of an audit.
ghost use Rattle.std.specs.Prelude.{◌≡◌, [], refl};
ghost use Rattle.std.proofs.Common.{ap};
ghost use Rattle.sat_base.specs.declared.kinds.TheConstants as kinds;
ghost use Rattle.record_kinds.specs.declared.rec.Rec.TheVariants as rec;
ghost use Rattle.record_rows.specs.Numbers.{be64};
ghost use Rattle.record_rows.specs.Laws.Apart.{four_first};
ghost use Rattle.record_rows.specs.Laws.Kinds.{the_audit_plan};

use crate::coded::Spelled;
use crate::kind::Kind;
use crate::places::Places;
use audit_core::AuditPlan;
use record_kinds::Rec;
use sat_base::{Moment, NoMemory, SegId, Serial, kinds};

// What is audited.
type Stripe = (u64, (SegId, (u64, u64)));

// Who is asked, and since when.
type Asking = (Serial, (Moment, Places));

type Body = (Stripe, Asking);

impl Kind for AuditPlan {
    type Id = ();

    type Body = Body;

    ghost KIND = { kinds.AUDIT_PLAN };

    const KIND: u8 = kinds::AUDIT_PLAN;

    ghost rec = { rec.AuditPlan };

    ghost made = { λ _ ((plan, (segment, (version, stripe))), (serial, (issued, asked))).
        rec.AuditPlan (record {
          plan = plan;
          segment = segment;
          version = version;
          stripe = stripe;
          serial = serial;
          issued = issued;
          asked = asked;
        }) };

    fn put_id(&self, _out: &mut Vec<u8>) -> Result<(), NoMemory> {
        Ok(())
    }

    fn put_body(&self, out: &mut Vec<u8>) -> Result<(), NoMemory> {
        let asked = (self.stripe, (self.serial, (self.issued, &self.asked)));
        (self.plan, (self.segment, (self.version, asked))).put(out)
    }

    fn of(_id: (), body: Body) -> Rec {
        let ((plan, (segment, (version, stripe))), asking) = body;
        let (serial, (issued, asked)) = asking;
        Rec::AuditPlan(AuditPlan {
            plan,
            segment,
            version,
            stripe,
            serial,
            issued,
            asked: asked.into_items(),
        })
    }

    ghost kind = { λ plan. refl };

    ghost parts = { record {
      row = λ id ((plan, (segment, (version, stripe))), _). ap (λ bytes. record { kind = kinds.AUDIT_PLAN; id = []; body = bytes }) (four_first (be64 plan) (be64 segment.0) (be64 version) (be64 stripe) _);
      ranked = λ id body. refl;
      parted = λ id body fits. (tt, ((fits.number, (fits.segment, (fits.version, fits.stripe))), (fits.serial, (fits.issued, fits.asked))));
      joined = λ id body id_fits ((number, (segment, (version, stripe))), (serial, (issued, asked))).
          record { number = number; segment = segment; version = version; stripe = stripe; serial = serial; issued = issued; asked = asked };
      whole = λ rec is. let found = the_audit_plan rec is in let x = found.0 in
          (tt, ((x.plan, (x.segment, (x.version, x.stripe))), (x.serial, (x.issued, x.asked))), found.1);
    } };
}

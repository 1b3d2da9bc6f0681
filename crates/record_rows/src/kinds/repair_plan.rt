// Kind 11: the open plan of a repair.
ghost use Rattle.std.specs.Prelude.{◌≡◌, ◌≤◌, ◌++◌, length, refl};
ghost use Rattle.std.proofs.Common.{sym};
ghost use Rattle.sat_base.specs.declared.kinds.TheConstants as kinds;
ghost use Rattle.record_kinds.specs.declared.rec.Rec.TheVariants as rec;
ghost use Rattle.record_rows.specs.Plans.{repair_plan_body};
ghost use Rattle.record_rows.specs.Fits.{RepairPlanFits, IsRepairShort};
ghost use Rattle.record_rows.specs.Numbers.{be64};
ghost use Rattle.record_rows.specs.Laws.Apart.{four_first};
ghost use Rattle.record_rows.specs.Laws.Kinds.{the_repair_plan};
ghost use Rattle.record_rows.specs.Laws.Records.{repair_plan_apart, some_repair_plan};

use crate::coded::{Coded, Spelled, Unread};
use crate::kind::Kind;
use crate::made::{Made, take_made};
use crate::places::Places;
use record_kinds::Rec;
use repair_core::RepairPlan;
use sat_base::{Moment, NoMemory, SegId, Serial, kinds};
use std::alloc::Global;

// What is rebuilt.
type Target = (u64, (SegId, (u64, Serial)));

// Since when, how long it is, and from where it goes where.
type Moves = (Moment, (u64, (Places, Places)));

type Fields = (Target, Moves);

impl Made for RepairPlan {
    type Fields = Fields;

    ghost fields = { λ p.
        ((p.plan, (p.segment, (p.version, p.serial))), (p.issued, (p.len, (p.sources, p.targets)))) };

    ghost bytes_of = { repair_plan_body };

    fn of(given: Fields) -> Option<Self> {
        let (target, moves) = given;
        let (plan, (segment, (version, serial))) = target;
        let (issued, (len, (sources, targets))) = moves;
        Some(RepairPlan {
            plan,
            segment,
            version,
            serial,
            issued,
            len,
            sources: sources.into_items(),
            targets: targets.into_items(),
        })
    }

    ghost spelled = { λ p. sym (four_first (be64 p.plan) (be64 p.segment.0) (be64 p.version) (be64 p.serial.0) _) };
}

impl Spelled for RepairPlan {
    ghost spelling = { repair_plan_body };

    ghost is_short = { IsRepairShort };

    fn put(&self, out: &mut Vec<u8>) -> Result<(), NoMemory> {
        let places = (&self.sources, &self.targets);
        let repair = (self.serial, (self.issued, (self.len, places)));
        (self.plan, (self.segment, (self.version, repair))).put(out)
    }
}

impl Coded for RepairPlan {
    ghost fits = { RepairPlanFits };

    fn take(alloc: Global, bytes: &[u8]) -> Result<(Self, usize), Unread> {
        take_made(alloc, bytes)
    }

    ghost apart = { repair_plan_apart };

    ghost some = { some_repair_plan };
}

impl Kind for RepairPlan {
    type Id = ();

    type Body = RepairPlan;

    ghost KIND = { kinds.REPAIR_PLAN };

    const KIND: u8 = kinds::REPAIR_PLAN;

    ghost rec = { rec.RepairPlan };

    ghost made = { λ _ plan. rec.RepairPlan plan };

    fn put_id(&self, _out: &mut Vec<u8>) -> Result<(), NoMemory> {
        Ok(())
    }

    fn put_body(&self, out: &mut Vec<u8>) -> Result<(), NoMemory> {
        self.put(out)
    }

    fn of(_id: (), body: RepairPlan) -> Rec {
        Rec::RepairPlan(body)
    }

    ghost kind = { λ p. refl };

    ghost parts = { record {
      row = λ id body. refl;
      ranked = λ id body. refl;
      parted = λ id body fits. (tt, fits);
      joined = λ id body id_fits body_fits. body_fits;
      whole = λ rec is. let p = the_repair_plan rec is in (tt, p.0, p.1);
    } };
}

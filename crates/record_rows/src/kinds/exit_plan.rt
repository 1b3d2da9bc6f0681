// Kind 14: the open plan of an exit.
ghost use Rattle.std.specs.Prelude.{◌≡◌, refl};
ghost use Rattle.sat_base.specs.declared.kinds.TheConstants as kinds;
ghost use Rattle.record_kinds.specs.declared.rec.Rec.TheVariants as rec;
ghost use Rattle.record_rows.specs.Laws.Kinds.{the_exit_plan};

use crate::coded::Spelled;
use crate::kind::Kind;
use record_kinds::Rec;
use repair_core::{ExitPlan, RepairPlan};
use sat_base::{At, NoMemory, kinds};

type Body = (At, RepairPlan);

impl Kind for ExitPlan {
    type Id = ();

    type Body = Body;

    ghost KIND = { kinds.EXIT_PLAN };

    const KIND: u8 = kinds::EXIT_PLAN;

    ghost rec = { rec.ExitPlan };

    ghost made = { λ _ (leaving, plan).
        rec.ExitPlan (record { leaving = leaving; plan = plan }) };

    fn put_id(&self, _out: &mut Vec<u8>) -> Result<(), NoMemory> {
        Ok(())
    }

    fn put_body(&self, out: &mut Vec<u8>) -> Result<(), NoMemory> {
        (self.leaving, &self.plan).put(out)
    }

    fn of(_id: (), body: Body) -> Rec {
        let (leaving, plan) = body;
        Rec::ExitPlan(ExitPlan { leaving, plan })
    }

    ghost kind = { λ plan. refl };

    ghost parts = { record {
      row = λ id body. refl;
      ranked = λ id body. refl;
      parted = λ id body fits. (tt, (fits.leaving, fits.repair));
      joined = λ id body id_fits (leaving, repair).
          record { leaving = leaving; repair = repair };
      whole = λ rec is. let found = the_exit_plan rec is in let x = found.0 in
          (tt, (x.leaving, x.plan), found.1);
    } };
}

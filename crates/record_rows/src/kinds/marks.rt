// Kind 2: how far a store has come.
ghost use Rattle.std.specs.Prelude.{◌≡◌, [], refl};
ghost use Rattle.std.proofs.Common.{ap, rules};
ghost use Rattle.sat_base.specs.declared.kinds.TheConstants as kinds;
ghost use Rattle.record_kinds.specs.declared.rec.Rec.TheVariants as rec;
ghost use Rattle.record_rows.specs.Numbers.{be64};
ghost use Rattle.record_rows.specs.Laws.Apart.{four_first};
ghost use Rattle.record_rows.specs.Laws.Kinds.{the_marks};

use crate::coded::Spelled;
use crate::kind::Kind;
use record_kinds::Rec;
use sat_base::{Hour, Marks, Moment, Month, NoMemory, kinds};

// How far time and the numbers have come.
type Numbers = (Moment, (u64, (u64, u64)));

type Body = (Numbers, (Month, Hour));

impl Kind for Marks {
    type Id = ();

    type Body = Body;

    ghost KIND = { kinds.MARKS };

    const KIND: u8 = kinds::MARKS;

    ghost rec = { rec.Marks };

    ghost made = { λ _ ((time, (segment, (serial, plan))), (month, hour)).
        rec.Marks (record {
          time = time;
          segment = segment;
          serial = serial;
          plan = plan;
          month = month;
          hour = hour;
        }) };

    fn put_id(&self, _out: &mut Vec<u8>) -> Result<(), NoMemory> {
        Ok(())
    }

    fn put_body(&self, out: &mut Vec<u8>) -> Result<(), NoMemory> {
        let next = (self.plan, (self.month, self.hour));
        (self.time, (self.segment, (self.serial, next))).put(out)
    }

    fn of(_id: (), body: Body) -> Rec {
        let (numbers, (month, hour)) = body;
        let (time, (segment, (serial, plan))) = numbers;
        Rec::Marks(Marks {
            time,
            segment,
            serial,
            plan,
            month,
            hour,
        })
    }

    ghost kind = { λ marks. refl };

    ghost parts = { record {
      row = λ id ((time, (segment, (serial, plan))), _). ap (λ bytes. record { kind = kinds.MARKS; id = []; body = bytes }) (four_first (be64 time) (be64 segment) (be64 serial) (be64 plan) _);
      ranked = λ id body. refl;
      parted = λ id body fits. Prim.search rules;
      joined = λ id body id_fits body_fits. Prim.search rules;
      whole = λ rec is. let found = the_marks rec is in let x = found.0 in
          (tt, ((x.time, (x.segment, (x.serial, x.plan))), (x.month, x.hour)), found.1);
    } };
}

// Kind 13: the last accepted request of a caller.
ghost use Rattle.std.specs.Prelude.{◌≡◌, refl};
ghost use Rattle.std.proofs.Common.{rules};
ghost use Rattle.sat_base.specs.declared.kinds.TheConstants as kinds;
ghost use Rattle.record_kinds.specs.declared.rec.Rec.TheVariants as rec;
ghost use Rattle.record_rows.specs.Laws.Kinds.{the_kept};

use crate::coded::Spelled;
use crate::kind::Kind;
use record_kinds::Rec;
use sat_base::{Asked, CustomerId, Done, Kept, NoMemory, kinds};

type Body = (u64, (Asked, Done));

impl Kind for Kept {
    type Id = CustomerId;

    type Body = Body;

    ghost KIND = { kinds.KEPT };

    const KIND: u8 = kinds::KEPT;

    ghost rec = { rec.Kept };

    ghost made = { λ caller (number, (asked, done)).
        rec.Kept (record { caller = caller; number = number; asked = asked; done = done }) };

    fn put_id(&self, out: &mut Vec<u8>) -> Result<(), NoMemory> {
        self.caller.put(out)
    }

    fn put_body(&self, out: &mut Vec<u8>) -> Result<(), NoMemory> {
        (self.number, (&self.asked, &self.done)).put(out)
    }

    fn of(caller: CustomerId, body: Body) -> Rec {
        let (number, (asked, done)) = body;
        Rec::Kept(Kept {
            caller,
            number,
            asked,
            done,
        })
    }

    ghost kind = { λ kept. refl };

    ghost parts = { record {
      row = λ id body. refl;
      ranked = λ id body. refl;
      parted = λ id body fits. Prim.search rules;
      joined = λ id body id_fits body_fits. Prim.search rules;
      whole = λ rec is. let found = the_kept rec is in let x = found.0 in
          (x.caller, (x.number, (x.asked, x.done)), found.1);
    } };
}

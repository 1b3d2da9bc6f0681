// Kind 16: the rates from a month on.
ghost use Rattle.std.specs.Prelude.{◌≡◌, refl};
ghost use Rattle.std.proofs.Common.{rules};
ghost use Rattle.sat_base.specs.declared.kinds.TheConstants as kinds;
ghost use Rattle.record_kinds.specs.declared.rec.Rec.TheVariants as rec;
ghost use Rattle.record_rows.specs.Laws.Kinds.{the_tariff};

use crate::coded::Spelled;
use crate::kind::Kind;
use record_kinds::Rec;
use sat_base::{Month, NoMemory, Rates, Tariff, kinds};

impl Kind for Tariff {
    type Id = Month;

    type Body = Rates;

    ghost KIND = { kinds.TARIFF };

    const KIND: u8 = kinds::TARIFF;

    ghost rec = { rec.Tariff };

    ghost made = { λ from rates.
        rec.Tariff (record { from = from; rates = rates }) };

    fn put_id(&self, out: &mut Vec<u8>) -> Result<(), NoMemory> {
        self.from.put(out)
    }

    fn put_body(&self, out: &mut Vec<u8>) -> Result<(), NoMemory> {
        self.rates.put(out)
    }

    fn of(from: Month, rates: Rates) -> Rec {
        Rec::Tariff(Tariff { from, rates })
    }

    ghost kind = { λ tariff. refl };

    ghost parts = { record {
      row = λ id body. refl;
      ranked = λ id body. refl;
      parted = λ id body fits. Prim.search rules;
      joined = λ id body id_fits body_fits. Prim.search rules;
      whole = λ rec is. let found = the_tariff rec is in let x = found.0 in
          (x.from, x.rates, found.1);
    } };
}

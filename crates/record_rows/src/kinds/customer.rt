// Kind 4: a customer.
ghost use Rattle.std.specs.Prelude.{◌≡◌, refl};
ghost use Rattle.sat_base.specs.declared.kinds.TheConstants as kinds;
ghost use Rattle.record_kinds.specs.declared.rec.Rec.TheVariants as rec;
ghost use Rattle.record_rows.specs.Laws.Kinds.{the_customer};

use crate::coded::Spelled;
use crate::kind::Kind;
use record_kinds::Rec;
use sat_base::{Customer, CustomerId, Moment, NoMemory, kinds};

impl Kind for Customer {
    type Id = CustomerId;

    type Body = Moment;

    ghost KIND = { kinds.CUSTOMER };

    const KIND: u8 = kinds::CUSTOMER;

    ghost rec = { rec.Customer };

    ghost made = { λ id added.
        rec.Customer (record { id = id; added = added }) };

    fn put_id(&self, out: &mut Vec<u8>) -> Result<(), NoMemory> {
        self.id.put(out)
    }

    fn put_body(&self, out: &mut Vec<u8>) -> Result<(), NoMemory> {
        self.added.put(out)
    }

    fn of(id: CustomerId, added: Moment) -> Rec {
        Rec::Customer(Customer { id, added })
    }

    ghost kind = { λ customer. refl };

    ghost parts = { record {
      row = λ id body. refl;
      ranked = λ id body. refl;
      parted = λ id body fits. (fits.id, fits.added);
      joined = λ id body id_fits added.
          record { id = id_fits; added = added };
      whole = λ rec is. let found = the_customer rec is in let x = found.0 in
          (x.id, x.added, found.1);
    } };
}

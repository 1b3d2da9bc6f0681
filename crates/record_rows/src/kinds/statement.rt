// Kind 8: what a node's operator is paid for a month.
ghost use Rattle.std.specs.Prelude.{◌≡◌, ◌++◌, refl};
ghost use Rattle.std.proofs.Common.{ap};
ghost use Rattle.sat_base.specs.declared.kinds.TheConstants as kinds;
ghost use Rattle.record_kinds.specs.declared.rec.Rec.TheVariants as rec;
ghost use Rattle.record_rows.specs.Numbers.{be8, be32};
ghost use Rattle.record_rows.specs.Bodies.{sums_bytes, parts_bytes};
ghost use Rattle.record_rows.specs.Laws.Apart.{four_first};
ghost use Rattle.record_rows.specs.Laws.Kinds.{the_statement};

use crate::coded::Spelled;
use crate::kind::Kind;
use record_kinds::Rec;
use sat_base::{Month, NoMemory, NodeId, kinds};
use tally_payout::{Parts, Statement, Sums};

// What was done, and earned.
type Work = (u32, (u8, (Sums, Parts)));

// What becomes of it.
type Pay = (u128, (u128, (u128, u128)));

type Body = (Work, Pay);

impl Kind for Statement {
    type Id = (Month, NodeId);

    type Body = Body;

    ghost KIND = { kinds.STATEMENT };

    const KIND: u8 = kinds::STATEMENT;

    ghost rec = { rec.Statement };

    ghost made = { λ (month, node) ((age, (percent, (sums, parts))), (held, (paid, (returned, pot)))).
        rec.Statement (record {
          month = month;
          node = node;
          age = age;
          percent = percent;
          sums = sums;
          parts = parts;
          held = held;
          paid = paid;
          returned = returned;
          pot = pot;
        }) };

    fn put_id(&self, out: &mut Vec<u8>) -> Result<(), NoMemory> {
        (self.month, self.node).put(out)
    }

    fn put_body(&self, out: &mut Vec<u8>) -> Result<(), NoMemory> {
        let pay = (self.held, (self.paid, (self.returned, self.pot)));
        (self.age, (self.percent, (self.sums, (self.parts, pay)))).put(out)
    }

    fn of(id: (Month, NodeId), body: Body) -> Rec {
        let (month, node) = id;
        let (work, pay) = body;
        let (age, (percent, (sums, parts))) = work;
        let (held, (paid, (returned, pot))) = pay;
        Rec::Statement(Statement {
            month,
            node,
            age,
            percent,
            sums,
            parts,
            held,
            paid,
            returned,
            pot,
        })
    }

    ghost kind = { λ statement. refl };

    ghost parts = { record {
      row = λ id ((age, (percent, (sums, parts))), _). ap (λ bytes. record { kind = kinds.STATEMENT; id = be32 id.0.0 ++ be32 id.1.0; body = bytes }) (four_first (be32 age) (be8 percent) (sums_bytes sums) (parts_bytes parts) _);
      ranked = λ id body. refl;
      parted = λ id body fits. ((fits.month, fits.node), ((fits.age, (fits.percent, (fits.sums, fits.parts))), (fits.held, (fits.paid, (fits.returned, fits.pot)))));
      joined = λ id body (month, node) ((age, (percent, (sums, parts))), (held, (paid, (returned, pot)))).
          record { month = month; node = node; age = age; percent = percent; sums = sums; parts = parts; held = held; paid = paid; returned = returned; pot = pot };
      whole = λ rec is. let found = the_statement rec is in let x = found.0 in
          ((x.month, x.node), ((x.age, (x.percent, (x.sums, x.parts))), (x.held, (x.paid, (x.returned, x.pot)))), found.1);
    } };
}

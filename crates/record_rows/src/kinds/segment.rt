// Kind 5: a segment.
ghost use Rattle.std.specs.Prelude.{◌≡◌, refl};
ghost use Rattle.sat_base.specs.declared.kinds.TheConstants as kinds;
ghost use Rattle.record_kinds.specs.declared.rec.Rec.TheVariants as rec;
ghost use Rattle.record_rows.specs.Laws.Kinds.{the_segment};

use crate::coded::Spelled;
use crate::kind::Kind;
use crate::places::Places;
use record_kinds::Rec;
use sat_base::{CustomerId, NoMemory, SegId, kinds};
use segment_core::Segment;

type Body = (CustomerId, (u64, (u64, Places)));

impl Kind for Segment {
    type Id = SegId;

    type Body = Body;

    ghost KIND = { kinds.SEGMENT };

    const KIND: u8 = kinds::SEGMENT;

    ghost rec = { rec.Segment };

    ghost made = { λ id (customer, (len, (version, pieces))).
        rec.Segment (record {
          id = id;
          customer = customer;
          len = len;
          version = version;
          pieces = pieces;
        }) };

    fn put_id(&self, out: &mut Vec<u8>) -> Result<(), NoMemory> {
        self.id.put(out)
    }

    fn put_body(&self, out: &mut Vec<u8>) -> Result<(), NoMemory> {
        (self.customer, (self.len, (self.version, &self.pieces))).put(out)
    }

    fn of(id: SegId, body: Body) -> Rec {
        let (customer, (len, (version, pieces))) = body;
        Rec::Segment(Segment {
            id,
            customer,
            len,
            version,
            pieces: pieces.into_items(),
        })
    }

    ghost kind = { λ segment. refl };

    ghost parts = { record {
      row = λ id body. refl;
      ranked = λ id body. refl;
      parted = λ id body fits. (fits.id, (fits.customer, (fits.len, (fits.version, fits.pieces))));
      joined = λ id body id_fits (customer, (len, (version, pieces))).
          record { id = id_fits; customer = customer; len = len; version = version; pieces = pieces };
      whole = λ rec is. let found = the_segment rec is in let x = found.0 in
          (x.id, (x.customer, (x.len, (x.version, x.pieces))), found.1);
    } };
}

// Kind 3: a storage node.
ghost use Rattle.std.specs.Prelude.{◌≡◌, refl};
ghost use Rattle.std.proofs.Common.{ap};
ghost use Rattle.sat_base.specs.declared.kinds.TheConstants as kinds;
ghost use Rattle.record_kinds.specs.declared.rec.Rec.TheVariants as rec;
ghost use Rattle.record_rows.specs.Numbers.{be16, be32, be64};
ghost use Rattle.record_rows.specs.Laws.Apart.{four_first};
ghost use Rattle.record_rows.specs.Laws.Kinds.{the_node};

use crate::coded::Spelled;
use crate::kind::Kind;
use node_registry::{Node, Status};
use record_kinds::Rec;
use sat_base::{Moment, NoMemory, NodeId, kinds};

// Where it is, and what it offers since when.
type Place = (u32, (u16, (u64, Moment)));

// What is held of it.
type Rating = (u32, (u32, (u32, Status)));

type Body = (Place, Rating);

impl Kind for Node {
    type Id = NodeId;

    type Body = Body;

    ghost KIND = { kinds.NODE };

    const KIND: u8 = kinds::NODE;

    ghost rec = { rec.Node };

    ghost made = { λ id ((addr, (port, (free, joined))), (alpha, (beta, (passes, status)))).
        rec.Node (record {
          id = id;
          addr = addr;
          port = port;
          free = free;
          joined = joined;
          alpha = alpha;
          beta = beta;
          passes = passes;
          status = status;
        }) };

    fn put_id(&self, out: &mut Vec<u8>) -> Result<(), NoMemory> {
        self.id.put(out)
    }

    fn put_body(&self, out: &mut Vec<u8>) -> Result<(), NoMemory> {
        let rating = (self.alpha, (self.beta, (self.passes, self.status)));
        (self.addr, (self.port, (self.free, (self.joined, rating)))).put(out)
    }

    fn of(id: NodeId, body: Body) -> Rec {
        let (place, rating) = body;
        let (addr, (port, (free, joined))) = place;
        let (alpha, (beta, (passes, status))) = rating;
        Rec::Node(Node {
            id,
            addr,
            port,
            free,
            joined,
            alpha,
            beta,
            passes,
            status,
        })
    }

    ghost kind = { λ node. refl };

    ghost parts = { record {
      row = λ id ((addr, (port, (free, joined))), _). ap (λ bytes. record { kind = kinds.NODE; id = be32 id.0; body = bytes }) (four_first (be32 addr) (be16 port) (be64 free) (be64 joined) _);
      ranked = λ id body. refl;
      parted = λ id body fits. (fits.id, ((fits.addr, (fits.port, (fits.free, fits.joined))), (fits.alpha, (fits.beta, (fits.passes, tt)))));
      joined = λ id body id_fits ((addr, (port, (free, joined))), (alpha, (beta, (passes, _)))).
          record { id = id_fits; addr = addr; port = port; free = free; joined = joined; alpha = alpha; beta = beta; passes = passes };
      whole = λ rec is. let found = the_node rec is in let x = found.0 in
          (x.id, ((x.addr, (x.port, (x.free, x.joined))), (x.alpha, (x.beta, (x.passes, x.status)))), found.1);
    } };
}

// The order that is due is offered.
ghost use Rattle.std.specs.Prelude.{◌≡◌, IsSome, length};
ghost use Rattle.std.specs.Int.{from_be_bytes, w64};
ghost use Rattle.order_limits.specs.Part.{part};
ghost use Rattle.order_uses.specs.Uses.{AreUses, use_at};
ghost use Rattle.stor_serve.specs.Offering.{OffersAt, Settles, serial_in};

use order_uses::Uses;
use sat_base::{Keeper, Serial};
use std::alloc::Global;
use stor_base::{Offered, Settler};

/// Offers the order that is due at a moment, if there is one, and notes where that settles it. A note that fails leaves the
/// row, so that the order is offered again.
pub(crate) fn offer_due<K: Keeper, S: Settler>(
    alloc: Global,
    uses: &mut Uses<K>,
    settler: &mut S,
    now: u64,
)
    ensures { OffersAt K.about now uses.old uses.new
        (record { offers = S.offers settler.old; faults = S.faults settler.old })
        (record { offers = S.offers settler.new; faults = S.faults settler.new }) }
{
    let Some(order) = uses.due(now) else {
        return;
    };
    are_uses(uses);
    let answer = settler.offer(alloc, &order);
    settle(uses, answer, &order);
}

// The law of the rows, which contracts aren't told of the uses.
fn are_uses<K: Keeper>(uses: &Uses<K>)
    ensures { AreUses uses.now.key uses.now.rows }
{
    let _ = uses.row(Serial(0));
}

// Notes that an order is settled where its offer says so.
fn settle<K: Keeper>(uses: &mut Uses<K>, answer: Offered, order: &[u8; 123])
    requires { IsSome (use_at uses.old.rows (serial_in order.now)) }
    ensures { Settles K.about answer order.now uses.old uses.new }
{
    match answer {
        Offered::Done => {
            let _ = uses.finish(serial_in(order));
        }
        Offered::Later | Offered::Failed | Offered::NoMemory => {}
    }
}

// The serial that an order names: the eight bytes behind its version and its action.
fn serial_in(order: &[u8; 123]) -> Serial
    ensures { result ≡ serial_in order.now }
{
    Serial(number_of(serial_bytes(order)))
}

#[tactic(auto, unfolding(order_limits::specs::Part::part))]
fn serial_bytes(order: &[u8]) -> &[u8]
    requires { length order.now ≡ 123 }
    ensures bytes { result.now ≡ part 2 8 order.now }
    ensures len { length result.now ≡ 8 }
{
    &order[2..10]
}

fn number_of(b: &[u8]) -> u64
    requires { length b.now ≡ 8 }
    ensures { result ≡ from_be_bytes w64 b.now }
{
    u64::from_be_bytes([b[0], b[1], b[2], b[3], b[4], b[5], b[6], b[7]])
}

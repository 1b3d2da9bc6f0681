// An order offered over a connection.
ghost use Rattle.std.specs.Prelude.{◌≡◌, ℕ, List, Some};
ghost use Rattle.stor_wire.specs.Offering.{IsOffered, SentFor};

use crate::settle::{Account, settle_request};
use crate::settled::{offered, read_settlement};
use http_parts::{Sent, send};
use sat_base::Link;
use std::alloc::Global;
use stor_base::Offered;

/// Offers an order over a connection to the satellite: sends the request, and reads the answer.
///
/// `Done` and `Later` are what a whole answer says, once the whole request was sent. Otherwise nothing is known of the order:
/// `Failed`, or `NoMemory`, which has no cause that a clause names.
pub fn offer_over<C: Link>(
    alloc: Global,
    link: &mut C,
    account: &Account,
    order: &[u8; 123],
) -> Offered
    ensures outcome { (all : List ℕ) → (C.about link.old).left ≡ Some all → IsOffered all result }
    ensures sent { SentFor account.now order.now result (C.about link.old).written (C.about link.new).written }
{
    let Ok(request) = settle_request(alloc, account, order) else {
        return Offered::NoMemory;
    };
    match send(link, request.as_slice()) {
        Sent::All => offered(read_settlement(alloc, link)),
        Sent::Fault => Offered::Failed,
    }
}

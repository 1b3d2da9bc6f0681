// What the customer does in its turns.
ghost use Rattle.std.specs.Prelude.{◌≡◌, ◌+◌, ◌<◌, ◌≤◌, length, vec_len, OnOk};
ghost use Rattle.sat_base.specs.declared.limits.TheConstants as limits;
ghost use Rattle.sat_base.specs.Moments.{IsMoment};

use crate::driver::Driver;
use crate::opening::PIECES;
use crate::orders::{Presented, order_at, settle_call};
use crate::uploads::LONGEST;
use machine_calls::{Call, Reply, Wish};
use order_limits::Action;
use rs_stripe::encode_pieces;
use sat_base::{
    Ask, CustomerId, Done, Items, Moment, NoMemory, Nodes, Offer, Place, SegId, Stored, limits,
};

// The one customer.
const CUSTOMER: CustomerId = CustomerId(1);

// From this bit on a choice says at which place a piece is fetched.
const PLACE_BITS: u32 = 16;

impl Driver {
    // The number of the customer's next request.
    fn next_request(&mut self) -> u64
        ensures { self.new.run ≡ self.old.run }
    {
        self.requests = self.requests.saturating_add(1);
        self.requests
    }

    /// Uploads a segment of so many bytes as the choice says, and commits it, where it is offered places.
    pub(crate) fn upload(&mut self, now: Moment, choice: u64) -> Result<(), NoMemory>
        requires timely { IsMoment now }
        requires room { length self.old.run.history + 2 ≤ limits.TERM }
        ensures { OnOk result (length self.new.run.history ≤ length self.old.run.history + 2) }
    {
        let len = 1 + choice % LONGEST;
        let words = self.words.words(self.alloc, limits::WORDS)?;
        let request = self.next_request();
        let wish = Wish::Begin {
            customer: CUSTOMER,
            request,
            len,
        };
        let reply = self.run.enter(Call::Asked { now, words, wish })?;
        let Reply::Done(Done::Offer(offer)) = reply else {
            return Ok(());
        };
        let bytes = self.words.bytes(self.alloc, len as usize)?;
        self.put_pieces(&offer, &bytes)?;
        self.commit(now, offer.segment, bytes)
    }

    // Puts the pieces of a segment at the places that are offered for them.
    fn put_pieces(&mut self, offer: &Offer, bytes: &[u8]) -> Result<(), NoMemory>
        requires { length bytes.now ≤ 4096 }
        ensures { self.new.run ≡ self.old.run }
    {
        let places = offer.places.as_slice();
        let indexes: Vec<u8> = places.iter().map(|place| place.index).collect(self.alloc)?;
        let pieces = encode_pieces(self.alloc, &self.run.store().scheme, bytes, &indexes)?;
        for (place, piece) in places.iter().zip(&pieces) {
            self.put(offer, place, piece.as_slice())?;
        }
        Ok(())
    }

    // Puts a piece at its place.
    fn put(&mut self, offer: &Offer, place: &Place, piece: &[u8]) -> Result<(), NoMemory>
        ensures { self.new.run ≡ self.old.run }
    {
        let order = order_at(&self.run.store().keys, Action::Put, offer, place).order;
        let ask = Ask {
            node: place.node,
            addr: place.addr,
            port: place.port,
            segment: offer.segment,
            index: place.index,
            offset: 0,
            len: offer.piece_len,
            order,
        };
        match self.nodes.put(self.alloc, &ask, piece) {
            Stored::Kept | Stored::NoAnswer => Ok(()),
            Stored::NoMemory => Err(NoMemory),
        }
    }

    // Commits a segment with all its pieces.
    fn commit(&mut self, now: Moment, segment: SegId, bytes: Vec<u8>) -> Result<(), NoMemory>
        requires timely { IsMoment now }
        requires short { vec_len bytes ≤ 4096 }
        requires room { length self.old.run.history < limits.TERM }
        ensures { OnOk result (length self.new.run.history ≡ length self.old.run.history + 1) }
    {
        let request = self.next_request();
        let indexes: Vec<u8> = (0..PIECES).collect(self.alloc)?;
        let wish = Wish::Commit {
            customer: CUSTOMER,
            request,
            segment,
            indexes: Items::of(indexes),
        };
        let reply = self.run.enter(Call::of_wish(self.alloc, now, wish))?;
        match reply {
            Reply::Done(Done::Committed { .. }) => self.nodes.uploads.note(segment, bytes),
            _ => Ok(()),
        }
    }

    /// Fetches a piece of the segment that is chosen among those that were committed, and its node presents the order.
    pub(crate) fn fetch(&mut self, now: Moment, choice: u64) -> Result<(), NoMemory>
        requires timely { IsMoment now }
        requires room { length self.old.run.history + 2 ≤ limits.TERM }
        ensures { OnOk result (length self.new.run.history ≤ length self.old.run.history + 2) }
    {
        let Some(segment) = self.nodes.uploads.chosen(choice) else {
            return Ok(());
        };
        let request = self.next_request();
        let wish = Wish::Get {
            customer: CUSTOMER,
            request,
            segment,
        };
        let reply = self.run.enter(Call::of_wish(self.alloc, now, wish))?;
        let Reply::Done(Done::Offer(offer)) = reply else {
            return Ok(());
        };
        match self.chosen_order(&offer, choice >> PLACE_BITS) {
            Some(presented) => {
                self.remembered = Some(presented);
                self.settle(now, &presented)
            }
            None => Ok(()),
        }
    }

    // The order of the place that a number chooses, where the offer has one.
    fn chosen_order(&self, offer: &Offer, number: u64) -> Option<Presented> {
        let places = offer.places.as_slice();
        let place = places.get((number % (places.len() as u64).max(1)) as usize)?;
        Some(order_at(&self.run.store().keys, Action::Get, offer, place))
    }

    /// The node of the order that was settled last presents it again, where there is one.
    pub(crate) fn present_again(&mut self, now: Moment) -> Result<(), NoMemory>
        requires timely { IsMoment now }
        requires room { length self.old.run.history < limits.TERM }
        ensures { OnOk result (length self.new.run.history ≤ length self.old.run.history + 1) }
    {
        match self.remembered {
            Some(presented) => self.settle(now, &presented),
            None => Ok(()),
        }
    }

    // A node presents its order.
    fn settle(&mut self, now: Moment, presented: &Presented) -> Result<(), NoMemory>
        requires timely { IsMoment now }
        requires room { length self.old.run.history < limits.TERM }
        ensures { OnOk result (length self.new.run.history ≡ length self.old.run.history + 1) }
    {
        let call = settle_call(self.alloc, now, presented)?;
        self.run.enter(call)?;
        Ok(())
    }
}

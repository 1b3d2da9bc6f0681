// Which rows may be due, so that the first that is due is found without a walk over all.
ghost use Rattle.std.specs.Prelude.{◌≡◌, ℕ, ◌≤◌, false, List, IsTrue, OnOk, option_copied};
ghost use Rattle.rows.specs.Rows.{Each};
ghost use Rattle.rows.specs.Slots.{with_row};
ghost use Rattle.order_uses.specs.Due.{due_of};
ghost use Rattle.order_uses.specs.Index.{IsIndexed, IsOver, NoneBefore};
ghost use Rattle.order_uses.specs.Opening.{HasSerial};
ghost use Rattle.order_uses.specs.Uses.{use_rank};
ghost use Rattle.order_uses.specs.declared.expiry.Expiry.{Expiry};
ghost use Rattle.order_uses.specs.declared.row.OrderUse.{OrderUse};

use crate::due::order_if_due;
use crate::expiry::{Candidate, Expiry};
use crate::putting::put_over;
use crate::row::OrderUse;
use order_limits::{SETTLE_TIME, read_offer};
use rows::{BlockRows, Ranked};
use sat_base::NoMemory;
use std::alloc::Global;

/// What may be due at a moment, and what waits for its expiry.
pub(crate) struct DueIndex {
    /// The last moment that was told.
    pub moment: u64,
    pub waiting: BlockRows<Expiry>,
    pub candidates: BlockRows<Candidate>,
}

// By hand, so that it is taken apart here, and not anew wherever one is let go.
impl Drop for DueIndex {
    fn drop(self) {
        let DueIndex {
            moment: _,
            waiting: _,
            candidates: _,
        } = self;
    }
}

// Moves the orders that expired before a moment to the candidates. Tells whether those were all, which they are where
// memory doesn't run out.
fn expire(waiting: &mut BlockRows<Expiry>, candidates: &mut BlockRows<Candidate>, now: u64) -> bool
    ensures kept { (key : List ℕ) (rows : List OrderUse) (moment : ℕ) → IsIndexed key rows moment waiting.old.rows candidates.old.rows
        → IsIndexed key rows moment waiting.new.rows candidates.new.rows }
    ensures all { IsTrue result → NoneBefore now waiting.new.rows }
{
    // once more than there are rows, to find that none is left
    for _i in 0..waiting.len().saturating_add(1) {
        let Some(first) = waiting.first() else {
            return true;
        };
        let expired = *first;
        if expired.expires >= now {
            return true;
        }
        if candidates.reserve().is_err() {
            return false;
        }
        waiting.remove(expired.rank());
        put_over(
            candidates,
            Candidate {
                serial: expired.serial,
            },
        );
    }
    false
}

// Whether the order of a row is to be offered, now or later.
fn can_come(key: &[u8; 32], moment: u64, kept: Option<&OrderUse>) -> bool
    ensures { result ≡ false → IsOver key.now moment (option_copied kept.entry) }
{
    let Some(row) = kept else {
        return false;
    };
    if row.done {
        return false;
    }
    match read_offer(key, &row.order) {
        Ok(order) => moment <= order.limit.expires.saturating_add(SETTLE_TIME),
        Err(_) => false,
    }
}

// Forgets the first candidates, as long as their orders will never be offered.
fn prune(
    key: &[u8; 32],
    moment: u64,
    candidates: &mut BlockRows<Candidate>,
    rows: &BlockRows<OrderUse>,
)
    ensures { (waiting : List Expiry) → IsIndexed key.now rows.now.rows moment waiting candidates.old.rows
        → IsIndexed key.now rows.now.rows moment waiting candidates.new.rows }
{
    for _i in 0..candidates.len() {
        let Some(first) = candidates.first() else {
            return;
        };
        let place = first.rank();
        if can_come(key, moment, rows.get(place)) {
            return;
        }
        candidates.remove(place);
    }
}

impl DueIndex {
    /// Nothing is listed.
    pub(crate) fn new(alloc: Global) -> Self {
        DueIndex {
            moment: 0,
            waiting: BlockRows::new(alloc),
            candidates: BlockRows::new(alloc),
        }
    }

    /// Makes room for one row more.
    pub(crate) fn reserve(&mut self) -> Result<(), NoMemory>
        ensures moment { self.new.moment ≡ self.old.moment }
        ensures waiting { self.new.waiting.rows ≡ self.old.waiting.rows }
        ensures candidates { self.new.candidates.rows ≡ self.old.candidates.rows }
        ensures waiting_room { OnOk result (1 ≤ self.new.waiting.spare) }
        ensures candidates_room { OnOk result (1 ≤ self.new.candidates.spare) }
    {
        self.waiting.reserve()?;
        self.candidates.reserve()?;
        Ok(())
    }

    /// Lists a row that is put among the rows. It takes no memory.
    pub(crate) fn note(&mut self, key: &[u8; 32], row: &OrderUse)
        requires waiting_room { 1 ≤ self.old.waiting.spare }
        requires candidates_room { 1 ≤ self.old.candidates.spare }
        ensures { (rows : List OrderUse) → HasSerial row.now → IsIndexed key.now rows self.old.moment self.old.waiting.rows self.old.candidates.rows
            → IsIndexed key.now (with_row use_rank rows row.now) self.new.moment self.new.waiting.rows self.new.candidates.rows }
    {
        let order = match read_offer(key, &row.order) {
            Ok(order) => order,
            Err(_) => return,
        };
        let serial = row.serial.0;
        let expires = order.limit.expires;
        if row.served == order.limit.limit || expires < self.moment {
            put_over(&mut self.candidates, Candidate { serial });
            return;
        }
        put_over(&mut self.waiting, Expiry { expires, serial });
    }

    /// Goes on to a moment. Where memory runs out it stays at the one before.
    pub(crate) fn advance(&mut self, now: u64)
        ensures { (key : List ℕ) (rows : List OrderUse) → IsIndexed key rows self.old.moment self.old.waiting.rows self.old.candidates.rows
            → IsIndexed key rows self.new.moment self.new.waiting.rows self.new.candidates.rows }
    {
        if now <= self.moment {
            return;
        }
        if expire(&mut self.waiting, &mut self.candidates, now) {
            self.moment = now;
        }
    }

    /// Forgets the first candidates, as long as their orders will never be offered.
    pub(crate) fn prune(&mut self, key: &[u8; 32], rows: &BlockRows<OrderUse>)
        ensures { IsIndexed key.now rows.now.rows self.old.moment self.old.waiting.rows self.old.candidates.rows
            → IsIndexed key.now rows.now.rows self.new.moment self.new.waiting.rows self.new.candidates.rows }
    {
        prune(key, self.moment, &mut self.candidates, rows);
    }

    /// The order to offer at the moment that was told last. It looks at the candidates alone.
    pub(crate) fn first_due(&self, key: &[u8; 32], rows: &BlockRows<OrderUse>) -> Option<[u8; 123]>
        requires indexed { IsIndexed key.now rows.now.rows self.now.moment self.now.waiting.rows self.now.candidates.rows }
        requires serials { Each HasSerial rows.now.rows }
        ensures { result ≡ due_of key.now rows.now.rows self.now.moment }
    {
        // the rows rise
        let _count = rows.len();
        let mut next = self.candidates.first();
        for _i in 0..self.candidates.len() {
            let Some(candidate) = next else {
                return None;
            };
            let place = candidate.rank();
            if let Some(order) = order_if_due(key, self.moment, rows.get(place)) {
                return Some(order);
            }
            next = self.candidates.after(place);
        }
        None
    }
}

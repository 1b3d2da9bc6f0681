// Which order is to be offered.
ghost use Rattle.std.specs.Prelude.{◌≡◌, option_copied};
ghost use Rattle.order_uses.specs.Due.{due_of, is_due, is_due_at, order_if_due};

use crate::row::OrderUse;
use order_limits::{Limit, SETTLE_TIME, read_offer};
use rows::{BlockRows, Ranked};

// Whether an order of this limit is due, under which so much was served.
fn is_due_at(now: u64, served: u64, limit: &Limit) -> bool
    ensures { result ≡ is_due_at now served limit.now }
{
    let until = limit.expires.saturating_add(SETTLE_TIME);
    (served == limit.limit || limit.expires < now) && now <= until
}

// Whether the order of a row is due.
#[tactic(auto, unfolding(crate::specs::Due::is_due))]
fn is_due(key: &[u8; 32], now: u64, row: &OrderUse) -> bool
    ensures { result ≡ is_due key.now now row.now }
{
    if row.done {
        return false;
    }
    match read_offer(key, &row.order) {
        Ok(order) => is_due_at(now, row.served, &order.limit),
        Err(_) => false,
    }
}

/// The order of a row, if there is one and it is due.
pub(crate) fn order_if_due(key: &[u8; 32], now: u64, kept: Option<&OrderUse>) -> Option<[u8; 123]>
    ensures { result ≡ order_if_due key.now now (option_copied kept.entry) }
{
    match kept {
        None => None,
        Some(row) => {
            if is_due(key, now, row) {
                Some(row.order)
            } else {
                None
            }
        }
    }
}

/// The order of the first row that is due. It goes over the rows until then.
pub(crate) fn first_due(key: &[u8; 32], now: u64, rows: &BlockRows<OrderUse>) -> Option<[u8; 123]>
    ensures { result ≡ due_of key.now rows.now.rows now }
{
    let mut next = rows.first();
    for _i in 0..rows.len() {
        let Some(row) = next else {
            return None;
        };
        if is_due(key, now, row) {
            return Some(row.order);
        }
        next = rows.after(row.rank());
    }
    None
}

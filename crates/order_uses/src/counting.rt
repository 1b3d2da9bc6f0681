// What a take comes to: the first refusal that holds, or the row that it puts.
ghost use Rattle.std.specs.Prelude.{◌≡◌, ◌≤◌, length, option_copied, IfOk};
ghost use Rattle.order_uses.specs.Opening.{HasSerial};
ghost use Rattle.order_uses.specs.Take.{chosen_order, counted_beside, fits_action, is_done, is_same_limit, kept_amount, kept_served, take_case, unfit};

use crate::bytes::{are_bytes, order_bytes, part_at};
use crate::row::OrderUse;
use crate::take::{TakeErr, Wanted};
use order_limits::{Action, Order, read_offer};
use rows::BlockRows;
use sat_base::NodeId;

// Whether a put has an action that writes, or a fetch one that reads.
fn fits_action(put: bool, action: Action) -> bool
    ensures { result ≡ fits_action put action }
{
    match action {
        Action::Put => put,
        Action::PutRepair => put,
        Action::Get => !put,
        Action::GetAudit => !put,
        Action::GetRepair => !put,
    }
}

// The order, unless something of it is no leave for what is wanted.
#[tactic(auto, unfolding(crate::specs::Take::unfit))]
fn fitting(node: NodeId, now: u64, wanted: &Wanted, order: Order) -> Result<Order, TakeErr>
    ensures { result ≡ unfit node now wanted.now order }
{
    let limit = order.limit;
    if limit.node.0 != node.0 {
        return Err(TakeErr::OtherNode {
            limit_node: limit.node,
        });
    }
    if limit.segment.0 != wanted.segment.0 || limit.index != wanted.index {
        return Err(TakeErr::OtherPiece);
    }
    if !fits_action(wanted.put, limit.action) {
        return Err(TakeErr::WrongAction {
            action: limit.action.byte(),
        });
    }
    if limit.expires < now {
        return Err(TakeErr::Expired {
            expires: limit.expires,
        });
    }
    if limit.limit < order.amount {
        return Err(TakeErr::OverLimit { limit: limit.limit });
    }
    Ok(order)
}

// The amount of the order that is kept.
fn kept_amount(key: &[u8; 32], kept: Option<&OrderUse>) -> u64
    ensures { result ≡ kept_amount key.now (option_copied kept.entry) }
{
    match kept {
        None => 0,
        Some(row) => match read_offer(key, &row.order) {
            Ok(order) => order.amount,
            Err(_) => 0,
        },
    }
}

fn kept_served(kept: Option<&OrderUse>) -> u64
    ensures { result ≡ kept_served (option_copied kept.entry) }
{
    match kept {
        None => 0,
        Some(row) => row.served,
    }
}

// Whether the bytes begin with the limit of the order that is kept.
fn is_same_limit(bytes: &[u8], kept: Option<&OrderUse>) -> bool
    requires { 83 ≤ length bytes.now }
    ensures { result ≡ is_same_limit bytes.now (option_copied kept.entry) }
{
    match kept {
        None => true,
        Some(row) => part_at(&row.order, 0, 83) == part_at(bytes, 0, 83),
    }
}

fn is_done(kept: Option<&OrderUse>) -> bool
    ensures { result ≡ is_done (option_copied kept.entry) }
{
    match kept {
        None => false,
        Some(row) => row.done,
    }
}

// The bytes of the order to keep: the new one, if it is greater or the first.
fn chosen_order(is_greater: bool, bytes: &[u8], kept: Option<&OrderUse>) -> [u8; 123]
    requires { length bytes.now ≡ 123 }
    ensures { result ≡ chosen_order is_greater bytes.now (option_copied kept.entry) }
{
    match kept {
        None => order_bytes(bytes),
        Some(row) => {
            if is_greater {
                order_bytes(bytes)
            } else {
                row.order
            }
        }
    }
}

// The row of a good order once the bytes are taken, beside what is kept of its serial among so many rows.
#[tactic(auto, unfolding(crate::specs::Take::counted_beside))]
fn counted_beside(
    key: &[u8; 32],
    cap: u32,
    count: usize,
    kept: Option<&OrderUse>,
    wanted: &Wanted,
    order: &Order,
) -> Result<OrderUse, TakeErr>
    requires { length wanted.now.order ≡ 123 }
    ensures { result ≡ counted_beside key.now cap count (option_copied kept.entry) wanted.now order.now }
{
    let bytes = wanted.order.as_slice();
    let amount = kept_amount(key, kept);
    let served = kept_served(kept);
    let most = amount.max(order.amount);
    if !is_same_limit(bytes, kept) {
        return Err(TakeErr::OtherLimit);
    }
    if is_done(kept) {
        return Err(TakeErr::OrderDone);
    }
    // in numbers that the sum fits
    if (most as u128) < served as u128 + wanted.len as u128 {
        return Err(TakeErr::Spent {
            left: most.saturating_sub(served),
        });
    }
    if kept.is_none() && cap as usize <= count {
        return Err(TakeErr::UsesFull { cap });
    }
    Ok(OrderUse {
        serial: order.limit.serial,
        order: chosen_order(amount < order.amount, bytes, kept),
        served: served + wanted.len,
        done: false,
    })
}

/// The row that a take puts, or the first refusal that holds.
#[tactic(auto, unfolding(crate::specs::Take::take_case))]
pub(crate) fn case_of(
    node: NodeId,
    key: &[u8; 32],
    cap: u32,
    rows: &BlockRows<OrderUse>,
    now: u64,
    wanted: &Wanted,
) -> Result<OrderUse, TakeErr>
    ensures { result ≡ take_case node key.now cap rows.now.rows now wanted.now }
{
    let order = read_offer(key, wanted.order.as_slice())?;
    let fit = fitting(node, now, wanted, order)?;
    let kept = rows.get(fit.limit.serial.0 as u128);
    counted_beside(key, cap, rows.len(), kept, wanted, &fit)
}

/// The same, with what is known of the row.
pub(crate) fn take_case(
    node: NodeId,
    key: &[u8; 32],
    cap: u32,
    rows: &BlockRows<OrderUse>,
    now: u64,
    wanted: &Wanted,
) -> Result<OrderUse, TakeErr>
    ensures case { result ≡ take_case node key.now cap rows.now.rows now wanted.now }
    ensures serial { IfOk result HasSerial }
{
    are_bytes(wanted.order.as_slice());
    case_of(node, key, cap, rows, now, wanted)
}

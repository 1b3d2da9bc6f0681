// Check sums of replies.
use machine_calls::Reply;
use sat_base::{Done, Offer, Place};

/// The sum over no replies.
pub(crate) const EMPTY: u64 = 0xcbf2_9ce4_8422_2325;

/// The sum with one more number, by a step of FNV-1a.
pub(crate) fn mix(sum: u64, number: u64) -> u64 {
    (sum ^ number).wrapping_mul(0x0100_0000_01b3)
}

fn place(sum: u64, place: &Place) -> u64 {
    let sum = mix(sum, u64::from(place.index));
    let sum = mix(sum, u64::from(place.node.0));
    let sum = mix(sum, u64::from(place.addr));
    mix(sum, u64::from(place.port))
}

fn all(sum: u64, places: &[Place]) -> u64 {
    let mut sum = sum;
    for one in places {
        sum = place(sum, one);
    }
    sum
}

fn offer(sum: u64, offer: &Offer) -> u64 {
    let sum = mix(sum, u64::from(offer.customer.0));
    let sum = mix(sum, offer.segment.0);
    let sum = mix(sum, offer.serial.0);
    let sum = mix(sum, u64::from(offer.action));
    let sum = mix(sum, offer.piece_len);
    let sum = mix(sum, offer.issued.seconds());
    all(sum, offer.places.as_slice())
}

fn done(sum: u64, done: &Done) -> u64 {
    match done {
        Done::NodeAdded { node } => mix(mix(sum, 1), u64::from(node.0)),
        Done::CustomerAdded { customer } => mix(mix(sum, 2), u64::from(customer.0)),
        Done::Offer(made) => offer(mix(sum, 3), made),
        Done::Committed { segment } => mix(mix(sum, 4), segment.0),
        Done::Deleted { segment } => mix(mix(sum, 5), segment.0),
    }
}

// Amounts, which are below 2^64 here.
fn amounts(sum: u64, amounts: [u128; 6]) -> u64 {
    let mut sum = sum;
    for amount in amounts {
        sum = mix(sum, u64::try_from(amount).unwrap_or(u64::MAX));
    }
    sum
}

/// The sum with one more reply.
pub(crate) fn reply(sum: u64, reply: &Reply) -> u64 {
    match reply {
        Reply::Done(answer) => done(mix(sum, 1), answer),
        Reply::Settled { amount } => mix(mix(sum, 2), *amount),
        Reply::Again { amount } => mix(mix(sum, 3), *amount),
        Reply::FreeSet => mix(sum, 4),
        Reply::Stopping => mix(sum, 5),
        Reply::Refused(refusal) => mix(mix(sum, 6), u64::from(refusal.number())),
        Reply::StoreFault { before, after } => mix(mix(mix(sum, 7), *before), *after),
        Reply::NoMemory => mix(sum, 8),
        Reply::AuditPlanned { places, .. } => all(mix(sum, 9), places.as_slice()),
        Reply::RepairPlanned {
            sources,
            targets,
            ..
        } => { all(all(mix(sum, 10), sources.as_slice()), targets.as_slice()) }
        Reply::ExitPlanned {
            sources,
            target,
            ..
        } => { place(all(mix(sum, 11), sources.as_slice()), target) }
        Reply::RecheckEnded { tries, .. } => mix(mix(sum, 12), u64::from(*tries)),
        Reply::Tallied { hour, nodes } => mix(mix(mix(sum, 14), hour.0), u64::from(*nodes)),
        Reply::Closed { month, fresh } => mix(
            mix(mix(sum, 15), u64::from(month.0)),
            u64::from(*fresh),
        ),
        Reply::Statement(row) => {
            let sum = mix(
                mix(mix(sum, 16), u64::from(row.node.0)),
                u64::from(row.month.0),
            );
            amounts(
                sum,
                [
                    row.sums.get,
                    row.sums.byte_hours,
                    row.parts.gross,
                    row.held,
                    row.paid,
                    row.pot,
                ],
            )
        }
        _ => mix(sum, 13),
    }
}

/// Whether the machine did what it was asked.
pub(crate) fn is_accepted(reply: &Reply) -> bool {
    matches!(
        reply,
        Reply::Done(_)
            | Reply::Settled { .. }
            | Reply::FreeSet
            | Reply::AuditPlanned { .. }
            | Reply::RepairPlanned { .. }
            | Reply::ExitPlanned { .. }
            | Reply::RecheckEnded { .. }
            | Reply::Tallied { .. }
            | Reply::Closed { .. }
            | Reply::Statement(_)
    )
}

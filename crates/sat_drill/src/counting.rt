// What the replies of a history come to.
ghost use Rattle.std.specs.Prelude.{◌≡◌, ◌≤◌, length};
ghost use Rattle.sat_base.specs.declared.limits.TheConstants as limits;
ghost use Rattle.sat_drill.specs.Drill.{amount_of, blamed_of, blamed_sum, count_of, is_counted, settled_sum};

use machine_calls::Reply;
use sat_base::Done;
use sat_book::Entry;

/// Which replies are counted.
#[derive(Clone, Copy)]
pub enum Counted {
    /// A segment was committed.
    Committed,
    /// An order was settled.
    Settled,
    /// An order was presented again.
    Again,
    AuditEnded,
    RepairEnded,
    Refused,
}

fn is_counted(kind: Counted, reply: &Reply) -> bool
    ensures { result ≡ is_counted kind reply.now }
{
    match kind {
        Counted::Committed => matches!(reply, Reply::Done(Done::Committed { .. })),
        Counted::Settled => matches!(reply, Reply::Settled { .. }),
        Counted::Again => matches!(reply, Reply::Again { .. }),
        Counted::AuditEnded => matches!(reply, Reply::AuditEnded { .. }),
        Counted::RepairEnded => matches!(reply, Reply::RepairEnded { .. }),
        Counted::Refused => matches!(reply, Reply::Refused(_)),
    }
}

/// How many replies are of this kind.
#[tactic(auto, unfolding(crate::specs::Drill::count_of))]
pub(crate) fn count(history: &[Entry], kind: Counted) -> u64
    ensures { result ≡ count_of kind history.now }
{
    let counted = history.iter().filter(|e| is_counted(kind, &e.reply));
    counted.count() as u64
}

fn amount_of(reply: &Reply) -> u64
    ensures { result ≡ amount_of reply.now }
{
    match reply {
        Reply::Settled { amount } => *amount,
        _ => 0,
    }
}

fn blamed_of(reply: &Reply) -> u64
    ensures { result ≡ blamed_of reply.now }
{
    match reply {
        Reply::AuditEnded { blamed, .. } => blamed.len() as u64,
        _ => 0,
    }
}

/// The bytes of all orders that were settled.
#[tactic(auto, unfolding(crate::specs::Drill::settled_sum))]
pub(crate) fn settled_sum(history: &[Entry]) -> u128
    requires { length history.now ≤ limits.TERM }
    ensures { result ≡ settled_sum history.now }
{
    let mut sum = 0u128;
    for entry in history {
        sum += u128::from(amount_of(&entry.reply));
    }
    sum
}

/// How many answers to audits were altered.
#[tactic(auto, unfolding(crate::specs::Drill::blamed_sum))]
pub(crate) fn blamed_sum(history: &[Entry]) -> u128
    requires { length history.now ≤ limits.TERM }
    ensures { result ≡ blamed_sum history.now }
{
    let mut sum = 0u128;
    for entry in history {
        sum += u128::from(blamed_of(&entry.reply));
    }
    sum
}

// What is one of a few: a byte stands for each.
ghost use Rattle.std.specs.Prelude.{◌≡◌, ◌≤◌, ◌++◌, ◌∷◌, length};
ghost use Rattle.order_limits.specs.Order.{action_byte};
ghost use Rattle.order_limits.specs.declared.limit.Action.TheVariants as action;
ghost use Rattle.node_registry.specs.Standing.{byte_of};
ghost use Rattle.node_registry.specs.declared.node.Status.TheVariants as status;
ghost use Rattle.record_rows.specs.Numbers.{be8};
ghost use Rattle.record_rows.specs.Laws.Records.{status_apart, action_apart};

use crate::coded::{Coded, Spelled, Unread};
use node_registry::Status;
use order_limits::Action;
use sat_base::NoMemory;
use std::alloc::Global;

impl Spelled for Status {
    ghost spelling = { λ status. be8 (byte_of status) };

    fn put(&self, out: &mut Vec<u8>) -> Result<(), NoMemory> {
        self.byte().put(out)
    }
}

impl Coded for Status {
    ghost fits = { λ _. Unit {0} };

    fn take(alloc: Global, bytes: &[u8]) -> Result<(Self, usize), Unread> {
        let (byte, size) = u8::take(alloc, bytes)?;
        let status = match byte {
            0 => Status::Active,
            1 => Status::Disqualified,
            2 => Status::Exiting,
            3 => Status::Exited,
            _ => return Err(Unread::Form),
        };
        Ok((status, size))
    }

    ghost apart = { status_apart };

    ghost some = { (status.Active, tt) };
}

impl Spelled for Action {
    ghost spelling = { λ action. be8 (action_byte action) };

    fn put(&self, out: &mut Vec<u8>) -> Result<(), NoMemory> {
        self.byte().put(out)
    }
}

impl Coded for Action {
    ghost fits = { λ _. Unit {0} };

    fn take(alloc: Global, bytes: &[u8]) -> Result<(Self, usize), Unread> {
        let (byte, size) = u8::take(alloc, bytes)?;
        match Action::of(byte) {
            Some(action) => Ok((action, size)),
            None => Err(Unread::Form),
        }
    }

    ghost apart = { action_apart };

    ghost some = { (action.Put, tt) };
}

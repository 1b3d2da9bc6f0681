// Why nothing was taken, in JSON.
ghost use Rattle.std.specs.Prelude.{◌≡◌, IfOk};
ghost use Rattle.serde_json.specs.View.{view};
ghost use Rattle.stor_wire.specs.Answers.{error_data, refusal_data, taken_data};

use order_uses::TakeErr;
use serde_json::{Value, json};
use std::alloc::{AllocError, Global};

/// The JSON of an error that has no more than a name.
pub(crate) fn error_value(alloc: Global, name: &str) -> Result<Value, AllocError>
    ensures { IfOk result (λ v. view v ≡ error_data name.now) }
{
    json!(in alloc; {"error": name})
}

/// The JSON of a refusal, by its name and its number, or of a failure of the node.
pub(crate) fn refusal_value(alloc: Global, err: TakeErr) -> Result<Value, AllocError>
    ensures { IfOk result (λ v. view v ≡ taken_data err) }
{
    match err {
        TakeErr::Length { .. } => numbered_value(alloc, "length", 1),
        TakeErr::Version { .. } => numbered_value(alloc, "version", 2),
        TakeErr::Action { .. } => numbered_value(alloc, "action", 3),
        TakeErr::LimitTag => numbered_value(alloc, "limit-tag", 4),
        TakeErr::OtherNode { .. } => numbered_value(alloc, "other-node", 6),
        TakeErr::OverLimit { .. } => numbered_value(alloc, "over-limit", 9),
        TakeErr::OtherPiece => numbered_value(alloc, "other-piece", 40),
        TakeErr::WrongAction { .. } => numbered_value(alloc, "wrong-action", 41),
        TakeErr::Expired { .. } => numbered_value(alloc, "expired", 42),
        TakeErr::OtherLimit => numbered_value(alloc, "other-limit", 43),
        TakeErr::OrderDone => numbered_value(alloc, "order-done", 44),
        TakeErr::Spent { .. } => numbered_value(alloc, "spent", 45),
        TakeErr::UsesFull { .. } => numbered_value(alloc, "uses-full", 46),
        TakeErr::Fault { .. } => error_value(alloc, "store"),
        TakeErr::NoMemory => error_value(alloc, "memory"),
    }
}

fn numbered_value(alloc: Global, name: &str, number: u64) -> Result<Value, AllocError>
    ensures { IfOk result (λ v. view v ≡ refusal_data name.now number) }
{
    json!(in alloc; {"error": name, "number": number})
}

// Statements, as the JSON of their answers.
ghost use Rattle.std.specs.Prelude.{◌≡◌, IfOk, OnOk};
ghost use Rattle.serde_json.specs.Data.{put as with_member};
ghost use Rattle.serde_json.specs.View.{view, members_view};
ghost use Rattle.http_edge.specs.Answers.{money, front_members, with_parts, with_rest, statement_data};

use month_text::text_of_month;
use serde_json::{Map, ToValue, Value, put};
use std::alloc::{AllocError, Global};
use tally_payout::{Parts, Statement};

// Puts an amount of micro-dollars, as a text.
fn put_money(
    map: &mut Map<String, Value>,
    alloc: Global,
    key: &str,
    amount: u128,
) -> Result<(), AllocError>
    ensures { OnOk result (members_view map.new.entries ≡ with_member key.now (money amount) (members_view map.old.entries)) }
{
    let text = format!(in alloc; "{amount}")?;
    put(map, alloc, key, Value::String(text))?;
    Ok(())
}

fn put_parts(map: &mut Map<String, Value>, alloc: Global, parts: &Parts) -> Result<(), AllocError>
    ensures { OnOk result (members_view map.new.entries ≡ with_parts parts.now (members_view map.old.entries)) }
{
    put_money(map, alloc, "audit", parts.audit)?;
    put_money(map, alloc, "get", parts.get)?;
    put_money(map, alloc, "gross", parts.gross)?;
    put_money(map, alloc, "repair", parts.repair)?;
    put_money(map, alloc, "storage", parts.storage)?;
    Ok(())
}

fn put_rest(
    map: &mut Map<String, Value>,
    alloc: Global,
    statement: &Statement,
) -> Result<(), AllocError>
    ensures { OnOk result (members_view map.new.entries ≡ with_rest statement.now (members_view map.old.entries)) }
{
    put_money(map, alloc, "held", statement.held)?;
    put_money(map, alloc, "paid", statement.paid)?;
    put_money(map, alloc, "pot", statement.pot)?;
    put_money(map, alloc, "returned", statement.returned)?;
    Ok(())
}

// What isn't money.
fn front_of(alloc: Global, statement: &Statement) -> Result<Map<String, Value>, AllocError>
    ensures { IfOk result (λ map. members_view map.entries ≡ front_members statement.now) }
{
    let month = text_of_month(alloc, statement.month)?;
    let mut map = Map::new(alloc);
    put(&mut map, alloc, "age", statement.age.to_value(alloc)?)?;
    put(&mut map, alloc, "month", Value::String(month))?;
    put(&mut map, alloc, "node", statement.node.0.to_value(alloc)?)?;
    put(
        &mut map,
        alloc,
        "percent",
        statement.percent.to_value(alloc)?,
    )?;
    Ok(map)
}

/// The JSON of a statement. Its amounts are texts, since clients read numbers of JSON up to 2^53 alone.
pub(crate) fn statement_value(alloc: Global, statement: &Statement) -> Result<Value, AllocError>
    ensures { IfOk result (λ v. view v ≡ statement_data statement.now) }
{
    let mut map = front_of(alloc, statement)?;
    put_parts(&mut map, alloc, &statement.parts)?;
    put_rest(&mut map, alloc, statement)?;
    Ok(Value::Object(map))
}

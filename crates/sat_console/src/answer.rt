// What the lines of the input are answered.
ghost use Rattle.std.specs.Prelude.{◌≡◌, ◌++◌, [], IfOk, OnOk, Some, option_map};
ghost use Rattle.sat_console.specs.Lines.{lines_of};
ghost use Rattle.sat_console.specs.Form.{asked_of};
ghost use Rattle.sat_console.specs.Question.{asked_as};
ghost use Rattle.sat_console.specs.Answers.{answers_to, answer_text, line_settlable, rows_behind, settle_text, settled_text};
ghost use Rattle.settlement.specs.Settle.{settled_as};

use crate::lines::next_line;
use crate::text::push_numbered;
use hex::FromHexError;
use order_limits::Keys;
use sat_base::{Moment, NoMemory, NodeId, cut, limits, number};
use settlement::{SettleErr, Settled, Settling};
use std::alloc::Global;

// The last moment that a line can name.
const LAST_MOMENT: u64 = limits::MOMENTS - 1;

// What a line asks: that a node's order be settled at a moment.
#[derive(Drop)]
struct Question {
    node: NodeId,
    moment: Moment,
    order: Vec<u8>,
}

// Reads a line `NODE MOMENT HEX`. None where it hasn't that form.
#[tactic(auto, unfolding(crate::specs::Form::asked_of))]
fn read_question(alloc: Global, line: &[u8]) -> Result<Option<Question>, NoMemory>
    ensures { IfOk result (λ o. option_map asked_as o ≡ asked_of line.now) }
{
    let Some((node, rest)) = cut(line, b' ') else {
        return Ok(None);
    };
    let Some((moment, hex)) = cut(rest, b' ') else {
        return Ok(None);
    };
    let Some(node) = number(node, u32::MAX as u64) else {
        return Ok(None);
    };
    let Some(moment) = number(moment, LAST_MOMENT) else {
        return Ok(None);
    };
    match hex::decode(alloc, hex) {
        Err(FromHexError::OutOfMemory) => Err(NoMemory),
        Err(_) => Ok(None),
        Ok(order) => Ok(Some(Question {
            node: NodeId(node as u32),
            moment: Moment::of(moment),
            order,
        })),
    }
}

// Writes what settling answered, without the LF.
#[tactic(auto, unfolding(crate::specs::Answers::settled_text))]
fn push_answer(text: &mut Vec<u8>, answer: Result<Settling, SettleErr>) -> Result<(), NoMemory>
    ensures text { OnOk result (text.new.items ≡ text.old.items ++ settled_text answer) }
    ensures known { OnOk result (answer ≡ Err SettleErr.NoMemory → ⊥) }
{
    match answer {
        Ok(Settling::Settled { amount }) => push_numbered(text, b"settled ", amount),
        Ok(Settling::Again { amount }) => push_numbered(text, b"again ", amount),
        Err(SettleErr::Length { got }) => push_numbered(text, b"length ", got),
        Err(SettleErr::Version { got }) => push_numbered(text, b"version ", got as u64),
        Err(SettleErr::Action { got }) => push_numbered(text, b"action ", got as u64),
        Err(SettleErr::LimitTag) => Ok(text.extend_from_slice(b"limit-tag")?),
        Err(SettleErr::OrderTag) => Ok(text.extend_from_slice(b"order-tag")?),
        Err(SettleErr::OtherNode { limit_node }) => {
            push_numbered(text, b"other-node ", limit_node.0 as u64)
        }
        Err(SettleErr::Differs { kept }) => push_numbered(text, b"differs ", kept),
        Err(SettleErr::Late { until }) => push_numbered(text, b"late ", until),
        Err(SettleErr::OverLimit { limit }) => push_numbered(text, b"over-limit ", limit),
        Err(SettleErr::SettledFull { cap }) => push_numbered(text, b"settled-full ", cap as u64),
        Err(SettleErr::NoMemory) => Err(NoMemory),
    }
}

/// Writes the answer to one line behind the text, and settles what it asks.
#[tactic(auto, unfolding(crate::specs::Answers::line_settlable, crate::specs::Answers::answer_text))]
fn answer_line(
    alloc: Global,
    keys: &Keys,
    rows: &mut Settled,
    line: &[u8],
    text: &mut Vec<u8>,
) -> Result<(), NoMemory>
    ensures text { OnOk result (text.new.items ≡ text.old.items
        ++ answer_text (option_map settled_as (line_settlable keys.now rows.old.cap rows.old.rows line.now))) }
    ensures rows { OnOk result (rows.new.rows
        ≡ rows_behind rows.old.rows (line_settlable keys.now rows.old.cap rows.old.rows line.now)) }
    ensures cap { rows.new.cap ≡ rows.old.cap }
{
    let Some(asked) = read_question(alloc, line)? else {
        text.extend_from_slice(b"bad-line\n")?;
        return Ok(());
    };
    let answer = rows.settle(keys, asked.node, asked.moment, &asked.order);
    push_answer(text, answer)?;
    text.push(b'\n')?;
    Ok(())
}

/// The text of the answers to all lines of an input, which settles at most `cap` orders.
pub(crate) fn answers(
    alloc: Global,
    keys: &Keys,
    cap: u32,
    input: &[u8],
) -> Result<Vec<u8>, NoMemory>
    ensures { IfOk result (λ text. text.items ≡ settle_text keys.now cap input.now) }
{
    let mut rows = Settled::new(alloc, cap);
    let mut text = Vec::new(alloc);
    let mut rest = input;
    while !rest.is_empty() {
        let (line, behind) = next_line(rest);
        answer_line(alloc, keys, &mut rows, line, &mut text)?;
        rest = behind;
    }
    Ok(text)
}

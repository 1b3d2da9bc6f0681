// The text of a drill.
ghost use Rattle.std.specs.Prelude.{◌≡◌, ◌≤◌, ◌++◌, length, IfOk, OnOk};
ghost use Rattle.sat_base.specs.declared.limits.TheConstants as limits;
ghost use Rattle.sat_drill.specs.Drill.{counts_text, line, numbered};

use crate::counting::{Counted, blamed_sum, count, settled_sum};
use itoa::Buffer;
use sat_base::{Bytes, NoMemory};
use sat_book::Entry;
use std::alloc::Global;

// Writes a word and a number.
#[tactic(auto, unfolding(crate::specs::Drill::numbered))]
fn push_numbered(text: &mut Vec<u8>, word: &[u8], n: u128) -> Result<(), NoMemory>
    ensures { OnOk result (text.new.items ≡ text.old.items ++ numbered word.now n) }
{
    let mut buffer = Buffer::new();
    text.extend_from_slice(word)?;
    text.extend_from_slice(buffer.format(n).as_bytes())?;
    Ok(())
}

// Writes a line of a word and a number.
#[tactic(auto, unfolding(crate::specs::Drill::line))]
fn push_count(text: &mut Vec<u8>, word: &[u8], n: u64) -> Result<(), NoMemory>
    ensures { OnOk result (text.new.items ≡ text.old.items ++ line (numbered word.now n)) }
{
    push_numbered(text, word, u128::from(n))?;
    text.push(b'\n')?;
    Ok(())
}

// Writes a line of two words, each with a number.
#[tactic(auto, unfolding(crate::specs::Drill::line))]
fn push_counts(
    text: &mut Vec<u8>,
    word: &[u8],
    n: u64,
    second: &[u8],
    m: u128,
) -> Result<(), NoMemory>
    ensures { OnOk result (text.new.items
        ≡ text.old.items ++ line (numbered word.now n ++ numbered second.now m)) }
{
    push_numbered(text, word, u128::from(n))?;
    push_numbered(text, second, m)?;
    text.push(b'\n')?;
    Ok(())
}

/// The lines of what a history comes to, and behind them a sheet. It fails only where memory runs out.
pub(crate) fn text_of(
    alloc: Global,
    history: &[Entry],
    wrong: u64,
    sheet: &[u8],
) -> Result<Bytes, NoMemory>
    requires { length history.now ≤ limits.TERM }
    ensures { IfOk result (λ text. text ≡ counts_text history.now wrong ++ sheet.now) }
{
    let settled = count(history, Counted::Settled);
    let audits = count(history, Counted::AuditEnded);
    let repairs = count(history, Counted::RepairEnded);
    let mut text = Vec::new(alloc);
    push_count(&mut text, b"entries ", history.len() as u64)?;
    push_count(&mut text, b"segments ", count(history, Counted::Committed))?;
    push_counts(&mut text, b"settled ", settled, b" ", settled_sum(history))?;
    push_count(&mut text, b"again ", count(history, Counted::Again))?;
    push_counts(
        &mut text,
        b"audits ",
        audits,
        b" blamed ",
        blamed_sum(history),
    )?;
    push_counts(
        &mut text,
        b"repairs ",
        repairs,
        b" wrong ",
        u128::from(wrong),
    )?;
    push_count(&mut text, b"refused ", count(history, Counted::Refused))?;
    text.extend_from_slice(sheet)?;
    Ok(Bytes::of(text))
}

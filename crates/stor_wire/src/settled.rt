// What the satellite's answer to an offered order says.
ghost use Rattle.std.specs.Prelude.{◌≡◌, ◌≤◌, ℕ, List, length, Some};
ghost use Rattle.sat_base.specs.Streams.{Took};
ghost use Rattle.serde_json.specs.View.{view};
ghost use Rattle.stor_wire.specs.Settlements.{IsHeard, IsSaid, MayReadAnswer, SettledBy, failed_settling, max_answer, number_in, offered_of, settlement_by, stays_refused};

use crate::response::{AnswerEnd, read_answer};
use http_parts::{MAX_BODY, MAX_HEAD};
use sat_base::Source;
use serde_json::Value;
use std::alloc::Global;
use stor_base::Offered;

/// What the satellite says of an order.
#[derive(Clone, Copy, Debug, PartialEq, Eq)]
pub enum Settlement {
    /// It is settled, or never will be.
    Done,
    /// It may be offered again.
    Later,
}

/// Why nothing is known of an order.
#[derive(Clone, Copy, Debug, PartialEq, Eq)]
pub enum SettleErr {
    /// A read failed.
    Fault,
    /// No whole answer stands at the front of the bytes.
    NotWhole,
    /// Memory ran out.
    NoMemory,
}

/// Reads the satellite's answer to an offered order: a head of at most 8192 bytes and 64 header lines (RFC 9112), and a body of
/// at most 65536 bytes. Status 200 ends the matter, and so does a refusal (409, RFC 8259) of the numbers 1 to 9; every other
/// whole answer leaves it open.
///
/// No read is made once an answer is whole. `NotWhole` says that the source ended, or 73728 bytes were read, before one was. A
/// failed read is counted, and nothing else. `NoMemory` has no cause that a clause names.
pub fn read_settlement<S: Source>(alloc: Global, source: &mut S) -> Result<Settlement, SettleErr>
    ensures outcome { (all : List ℕ) → (S.about source.old).left ≡ Some all → SettledBy all result }
    ensures took { (bytes : List ℕ) × Took MayReadAnswer bytes 1 (failed_settling result) (S.about source.old) (S.about source.new)
        × (length bytes ≤ max_answer) × IsHeard bytes (S.about source.new).left result }
{
    let Ok(mut buf) = vec![in alloc; 0u8; MAX_HEAD + MAX_BODY as usize] else {
        return Err(SettleErr::NoMemory);
    };
    read_into(alloc, source, &mut buf)
}

// Reads the answer into a buffer.
fn read_into<S: Source>(
    alloc: Global,
    source: &mut S,
    buf: &mut [u8],
) -> Result<Settlement, SettleErr>
    requires { length buf.now ≡ max_answer }
    ensures { (bytes : List ℕ) × Took MayReadAnswer bytes 1 (failed_settling result) (S.about source.old) (S.about source.new)
        × (length bytes ≤ max_answer) × IsHeard bytes (S.about source.new).left result }
{
    let read = read_answer(source, buf);
    let bytes = &buf[..read.got];
    match read.end {
        AnswerEnd::Whole(at) => said_by(alloc, at.status, &bytes[at.start..at.start + at.size]),
        AnswerEnd::Ended | AnswerEnd::Full => Err(SettleErr::NotWhole),
        AnswerEnd::Fault => Err(SettleErr::Fault),
    }
}

// What an answer of this status and with this body says.
fn said_by(alloc: Global, status: u16, body: &[u8]) -> Result<Settlement, SettleErr>
    ensures { IsSaid status body.now result }
{
    if status == 200 {
        return Ok(Settlement::Done);
    }
    if status != 409 {
        return Ok(Settlement::Later);
    }
    match Value::from_slice(alloc, body) {
        Ok(value) => Ok(said_by_refusal(&value)),
        Err(e) => {
            if e.is_memory() {
                return Err(SettleErr::NoMemory);
            }
            Ok(Settlement::Later)
        }
    }
}

// What a refusal says, by its number.
fn said_by_refusal(value: &Value) -> Settlement
    ensures { result ≡ settlement_by (stays_refused (number_in (view value.now))) }
{
    match value.get("number").and_then(Value::as_u64) {
        Some(number) if number >= 1 && number <= 9 => Settlement::Done,
        _ => Settlement::Later,
    }
}

/// What an offer comes to, whose answer was read to that.
pub fn offered(settled: Result<Settlement, SettleErr>) -> Offered
    ensures { result ≡ offered_of settled }
{
    match settled {
        Ok(Settlement::Done) => Offered::Done,
        Ok(Settlement::Later) => Offered::Later,
        Err(SettleErr::Fault | SettleErr::NotWhole) => Offered::Failed,
        Err(SettleErr::NoMemory) => Offered::NoMemory,
    }
}

// Pieces, given as `INDEX:NODE`, apart by commas.
ghost use Rattle.std.specs.Prelude.{◌≡◌, ◌-◌, ◌<◌, length, slice_index_or, IsTrue, IfOk};
ghost use Rattle.sat_base.specs.declared.records.At.{At};
ghost use Rattle.segment_core.specs.Places.{IsByIndex};

use crate::fields::{Fields, LineErr};
use sat_base::{At, NodeId};
use std::alloc::Global;

// Whether a piece has an index above that of the one before it, if there is one.
fn is_above(pieces: &[At], i: usize) -> bool
    requires { i < length pieces.now }
    ensures { IsTrue result → (d : At) → 0 < i → (slice_index_or pieces.now (i - 1) d).index < (slice_index_or pieces.now i d).index }
{
    if i == 0 {
        return true;
    }
    let before = pieces[i - 1];
    let here = pieces[i];
    before.index < here.index
}

// Whether the indexes rise.
fn is_by_index(pieces: &[At]) -> bool
    ensures { IsTrue result → IsByIndex pieces.now }
{
    for i in 0..pieces.len() {
        if !is_above(pieces, i) {
            return false;
        }
    }
    true
}

// INDEX:NODE.
fn piece(fields: &mut Fields<'_>) -> Result<At, LineErr> {
    let mut parts = fields.parts()?;
    let piece = At {
        index: parts.number()?,
        node: NodeId(parts.number()?),
    };
    parts.end()?;
    Ok(piece)
}

// A list in which indexes don't rise hasn't the form.
pub(crate) fn pieces(alloc: Global, fields: &mut Fields<'_>) -> Result<Vec<At>, LineErr>
    ensures { IfOk result (λ pieces. IsByIndex pieces.items) }
{
    let mut list = fields.list()?;
    let mut pieces = Vec::new(alloc);
    for _ in 0..u64::MAX {
        if list.is_done() {
            break;
        }
        pieces.push(piece(&mut list)?)?;
    }
    if is_by_index(&pieces) {
        Ok(pieces)
    } else {
        Err(LineErr::Bad)
    }
}

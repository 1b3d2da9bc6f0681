// A customer is offered places for the pieces of a segment.
ghost use Rattle.std.specs.Prelude.{◌≡◌, ◌≤◌, false, length, IfOk};
ghost use Rattle.machine_step.specs.Bounds.{IsValid};
ghost use Rattle.machine_step.specs.Tables.{is_no_size};
ghost use Rattle.machine_step.specs.Calls.Begin.{pending_of, offered_for, has_no_number, begun, begin_placed, begin};
ghost use Rattle.machine_store.specs.Prepared.{Holds};
ghost use Rattle.machine_store.specs.Store.{tables_of};
ghost use Rattle.sat_base.specs.declared.limits.TheConstants as limits;

use crate::answers::customer_answer;
use machine_calls::{Asking, RecChange, Refusal, TableName};
use machine_store::{Prepared, Store, done_with, pieces, places, refused, table_full};
use order_limits::Action;
use placement::{PlaceErr, place};
use sat_base::{
    Asked, CustomerId, Done, Items, Marks, NoMemory, NodeId, Offer, SegId, Serial, limits,
};
use segment_core::Segment;
use std::alloc::Global;

// The pending segment at these nodes.
fn pending(
    alloc: Global,
    store: &Store,
    customer: CustomerId,
    len: u64,
    ids: &[NodeId],
) -> Result<Segment, NoMemory>
    requires { length ids.now ≤ limits.PLACES }
    ensures { IfOk result (λ segment. segment ≡ pending_of store.now.marks.segment customer len ids.now) }
{
    let pieces = pieces(alloc, ids)?;
    Ok(Segment {
        id: SegId(store.marks.segment),
        customer,
        len,
        version: 0,
        pieces: Items::of(pieces),
    })
}

// The segment and the offer.
fn begun(
    alloc: Global,
    store: &Store,
    asking: &Asking,
    len: u64,
    words: &[u64],
    ids: &[NodeId],
) -> Result<Prepared, NoMemory>
    requires valid { IsValid (tables_of store.now) }
    requires size { is_no_size (tables_of store.now).setup len ≡ false }
    requires number { has_no_number (tables_of store.now) ≡ false }
    requires few { length ids.now ≤ limits.PLACES }
    requires ids { ids.now ≡ offered_for (tables_of store.now) len words.now }
    ensures { IfOk result (λ p. Holds p (begun (tables_of store.now) asking.now len words.now)) }
{
    let segment = pending(alloc, store, asking.caller, len, ids)?;
    let offer = Offer {
        customer: asking.caller,
        segment: segment.id,
        serial: Serial(store.marks.serial),
        action: Action::Put.byte(),
        piece_len: store.settings.scheme.piece_len(len),
        issued: asking.time,
        places: places(alloc, &store.nodes, segment.pieces.as_slice())?,
    };
    let marks = Marks {
        segment: store.marks.segment + 1,
        serial: store.marks.serial + 1,
        ..store.marks_at(asking.time)
    };
    let put = Some(RecChange::Segment(segment));
    done_with(
        alloc,
        marks,
        put,
        asking,
        Asked::Begin { len },
        Done::Offer(offer),
    )
}

// The segment and the offer, where nodes in enough subnets are eligible.
fn begin_placed(
    alloc: Global,
    store: &Store,
    asking: &Asking,
    len: u64,
    words: &[u64],
) -> Result<Prepared, NoMemory>
    requires valid { IsValid (tables_of store.now) }
    requires words { length words.now ≡ limits.WORDS }
    requires size { is_no_size (tables_of store.now).setup len ≡ false }
    requires number { has_no_number (tables_of store.now) ≡ false }
    ensures { IfOk result (λ p. Holds p (begin_placed (tables_of store.now) asking.now len words.now)) }
{
    let settings = &store.settings;
    let need = settings.scheme.n;
    let fresh = (need as u32 * settings.fresh as u32 / 100) as u8;
    let piece_len = settings.scheme.piece_len(len);
    match place(
        alloc,
        &store.nodes,
        settings.vet,
        need,
        fresh,
        &[],
        piece_len,
        words,
    ) {
        Ok(ids) => begun(alloc, store, asking, len, words, ids.as_slice()),
        Err(PlaceErr::Few { chosen }) => Ok(refused(alloc, Refusal::Few { chosen })),
        Err(PlaceErr::NoMemory) => Err(NoMemory),
    }
}

pub(crate) fn begin(
    alloc: Global,
    store: &Store,
    asking: &Asking,
    len: u64,
    words: &[u64],
) -> Result<Prepared, NoMemory>
    requires valid { IsValid (tables_of store.now) }
    requires words { length words.now ≡ limits.WORDS }
    ensures { IfOk result (λ p. Holds p (begin (tables_of store.now) asking.now len words.now)) }
{
    let asked = Asked::Begin { len };
    let answer = customer_answer(alloc, store, asking, &asked)?;
    if let Some(answer) = answer {
        return Ok(answer);
    }
    let settings = &store.settings;
    let max = settings.scheme.max_len();
    if len == 0 || len > max {
        return Ok(refused(alloc, Refusal::Size { max }));
    }
    if store.segments.len() >= settings.caps.segments as usize {
        return Ok(table_full(alloc, TableName::Segments));
    }
    if store.marks.segment >= limits::LAST_NUMBER || store.marks.serial >= limits::LAST_NUMBER {
        return Ok(table_full(alloc, TableName::Numbers));
    }
    begin_placed(alloc, store, asking, len, words)
}

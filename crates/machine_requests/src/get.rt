// A customer is told where the healthy pieces of its segment lie.
ghost use Rattle.std.specs.Prelude.{◌≡◌, ◌<◌, ◌^◌, Some, IfOk};
ghost use Rattle.machine_step.specs.Bounds.{IsValid};
ghost use Rattle.machine_step.specs.Tables.{owned_at};
ghost use Rattle.machine_step.specs.Health.{healthy_of};
ghost use Rattle.machine_step.specs.Calls.Get.{offered, get};
ghost use Rattle.machine_store.specs.Prepared.{Holds};
ghost use Rattle.machine_store.specs.Store.{tables_of};
ghost use Rattle.sat_base.specs.declared.limits.TheConstants as limits;

use crate::answers::customer_answer;
use machine_calls::{Asking, Refusal, TableName};
use machine_store::{Prepared, Store, done_with, places, refused, table_full};
use order_limits::Action;
use sat_base::{Asked, At, Done, Marks, NoMemory, Offer, SegId, Serial, limits};
use segment_core::{Segment, healthy};
use std::alloc::Global;

// An offer of the healthy pieces.
fn offered(
    alloc: Global,
    store: &Store,
    asking: &Asking,
    segment: SegId,
    found: &Segment,
    pieces: &[At],
) -> Result<Prepared, NoMemory>
    requires valid { IsValid (tables_of store.now) }
    requires found { owned_at (tables_of store.now).segments asking.now.caller segment ≡ Some found.now }
    requires number { store.now.marks.serial < limits.LAST_NUMBER }
    requires pieces { pieces.now ≡ healthy_of (tables_of store.now) found.now }
    ensures { IfOk result (λ p. Holds p (offered (tables_of store.now) asking.now segment found.now)) }
{
    let offer = Offer {
        customer: asking.caller,
        segment,
        serial: Serial(store.marks.serial),
        action: Action::Get.byte(),
        piece_len: store.settings.scheme.piece_len(found.len),
        issued: asking.time,
        places: places(alloc, &store.nodes, pieces)?,
    };
    let marks = Marks {
        serial: store.marks.serial + 1,
        ..store.marks_at(asking.time)
    };
    let asked = Asked::Get { segment };
    done_with(alloc, marks, None, asking, asked, Done::Offer(offer))
}

pub(crate) fn get(
    alloc: Global,
    store: &Store,
    asking: &Asking,
    segment: SegId,
) -> Result<Prepared, NoMemory>
    requires { IsValid (tables_of store.now) }
    ensures { IfOk result (λ p. Holds p (get (tables_of store.now) asking.now segment)) }
{
    let asked = Asked::Get { segment };
    let answer = customer_answer(alloc, store, asking, &asked)?;
    if let Some(answer) = answer {
        return Ok(answer);
    }
    let Some(found) = store.owned(asking.caller, segment) else {
        return Ok(refused(alloc, Refusal::NoSegment { segment }));
    };
    if found.version == 0 {
        return Ok(refused(alloc, Refusal::NoSegment { segment }));
    }
    let pieces = healthy(alloc, found, &store.nodes)?;
    let need = store.settings.scheme.k;
    if pieces.len() < need as usize {
        let have = pieces.len() as u8;
        return Ok(refused(alloc, Refusal::TooFew { have, need }));
    }
    if store.marks.serial >= limits::LAST_NUMBER {
        return Ok(table_full(alloc, TableName::Numbers));
    }
    offered(alloc, store, asking, segment, found, pieces.as_slice())
}

// Random words for a plan.
ghost use Rattle.std.specs.Prelude.{◌≡◌, IfOk, IfErr, length};
ghost use Rattle.sat_base.specs.Outside.{with_front};
ghost use Rattle.node_rounds.specs.Drawing.{Wants};

use sat_base::{Items, Words, Words64};
use sat_sessions::{RoundEnd, draw};
use std::alloc::Global;

// Draws so many words. The room for them is made first, so that none is drawn where memory runs out.
pub(crate) fn draw_words<W: Words>(
    alloc: Global,
    words: &mut W,
    number: usize,
) -> Result<Words64, RoundEnd>
    ensures number { IfOk result (λ drawn. length drawn ≡ number) }
    ensures drawn { IfOk result (λ drawn. W.left words.old ≡ with_front drawn (W.left words.new)) }
    ensures faults { IfOk result (λ drawn. W.faults words.new ≡ W.faults words.old) }
    ensures wants { IfErr result (Wants number (W.left words.old) (W.faults words.old) (W.left words.new) (W.faults words.new)) }
{
    let Ok(mut room) = vec![in alloc; 0u64; number] else {
        return Err(RoundEnd::NoMemory);
    };
    if draw(words, &mut room) {
        Ok(Items::of(room))
    } else {
        Err(RoundEnd::WordsFault)
    }
}

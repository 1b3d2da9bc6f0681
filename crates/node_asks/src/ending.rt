// How a repair ends.
ghost use Rattle.std.specs.Prelude.{◌≡◌, length, IfOk};
ghost use Rattle.node_asks.specs.Ending.{Told, sound_of, IsConcluded};

use repair_core::{Mended, RepairOutcome, RepairPlan, Unmended};
use sat_base::{Indexes, NoMemory, Scheme};
use std::alloc::Global;

// How many answered and weren't altered.
fn count_sound(blamed: &Indexes, answered: &Indexes) -> usize
    ensures { result ≡ length (sound_of blamed.now answered.now) }
{
    answered
        .as_slice()
        .iter()
        .filter(|index| !blamed.as_slice().contains(*index))
        .count()
}

/// How a repair ended whose pieces were made: mended exactly where at least `k` of the sources that answered weren't
/// altered. `placed` are the targets that are kept. It fails only where memory runs out.
pub fn conclude(
    alloc: Global,
    scheme: &Scheme,
    plan: RepairPlan,
    blamed: &Indexes,
    answered: &Indexes,
    placed: Indexes,
    missing: Indexes,
) -> Result<RepairOutcome, NoMemory>
    requires { Told plan blamed.now answered.now placed missing }
    ensures { IfOk result (IsConcluded scheme.now plan blamed.now answered.now placed missing) }
{
    if count_sound(blamed, answered) < usize::from(scheme.k) {
        return Ok(RepairOutcome::Unmended(Unmended { plan, missing }));
    }
    Ok(RepairOutcome::Mended(Mended {
        scheme: *scheme,
        plan,
        placed,
        blamed: blamed.copy(alloc)?,
        missing,
    }))
}

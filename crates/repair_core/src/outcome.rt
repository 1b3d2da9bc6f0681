// What comes of a repair.
ghost use Rattle.std.specs.Prelude.{◌≡◌, ◌≤◌, true, false, length, All};
ghost use Rattle.bw_decode.specs.Near.{Rises};
ghost use Rattle.repair_core.specs.Indexes.{has_index, others, place_indexes};

use crate::plan::RepairPlan;
use sat_base::{Indexes, Scheme};

/// A repair that made fresh pieces. Its type keeps its lists to its plan, so that at least `k` sources came and were
/// not altered.
#[derive(Drop)]
pub struct Mended {
    /// The scheme of the segment.
    pub scheme: Scheme,
    /// The plan of the repair.
    pub plan: RepairPlan,
    /// The targets whose fresh pieces lie in their places.
    pub placed: Indexes,
    /// The sources that were altered.
    pub blamed: Indexes,
    /// The sources whose pieces are missing.
    pub missing: Indexes,
    pub ghost placed_rise: { Rises placed },
    pub ghost blamed_rise: { Rises blamed },
    pub ghost missing_rise: { Rises missing },
    pub ghost placed_at_targets: { All (λ index. has_index (place_indexes plan.targets) index ≡ true) placed },
    pub ghost blamed_of_sources: { All (λ index. has_index (place_indexes plan.sources) index ≡ true) blamed },
    pub ghost missing_of_sources: { All (λ index. has_index (place_indexes plan.sources) index ≡ true) missing },
    pub ghost apart: { All (λ index. has_index missing index ≡ false) blamed },
    pub ghost enough: { scheme.k ≤ length (others (place_indexes plan.sources) blamed missing) },
}

/// A repair that made nothing.
#[derive(Drop)]
pub struct Unmended {
    /// The plan of the repair.
    pub plan: RepairPlan,
    /// The sources whose pieces are missing.
    pub missing: Indexes,
    pub ghost missing_rise: { Rises missing },
    pub ghost missing_of_sources: { All (λ index. has_index (place_indexes plan.sources) index ≡ true) missing },
}

/// How a repair ended.
#[derive(Drop)]
pub enum RepairOutcome {
    /// It made fresh pieces.
    Mended(Mended),
    /// It made nothing.
    Unmended(Unmended),
}

ghost use Rattle.std.specs.Prelude.{◌≡◌, ◌<◌, All, true};
ghost use Rattle.sat_base.specs.declared.limits.TheConstants as limits;
ghost use Rattle.segment_core.specs.Places.{IsByIndex};
ghost use Rattle.segment_core.specs.Rising.{is_rising};

use sat_base::{At, limits};

// Whether the indexes rise, and are below 128.
fn is_rising(places: &[At]) -> bool
    ensures { result ≡ is_rising 0 places.now }
{
    let mut least = 0;
    for place in places {
        if place.index < least || place.index >= limits::PLACES {
            return false;
        }
        least = place.index + 1;
    }
    true
}

/// Whether places stand by rising index, and their indexes are below 128.
pub fn are_places(places: &[At]) -> bool
    ensures sound { result ≡ true
        → IsByIndex places.now × All (λ at. at.index < limits.PLACES) places.now }
    ensures complete { IsByIndex places.now → All (λ at. at.index < limits.PLACES) places.now
        → result ≡ true }
{
    is_rising(places)
}

// The ids of the live segments.
ghost use Rattle.std.specs.Prelude.{◌≡◌, ◌≤◌, true, false, if◌then◌else◌};
ghost use Rattle.rows.specs.Rows.{without};
ghost use Rattle.rows.specs.Slots.{with_row};
ghost use Rattle.segment_index.specs.Keys.{live_rank};

use rows::{BlockRows, Ranked};

// The id of a live segment.
#[derive(Clone, Copy)]
pub(crate) struct LiveId {
    pub id: u64,
}

impl Ranked for LiveId {
    ghost use Rattle.segment_index.specs.Keys.{live_rank};

    ghost rank = { live_rank };

    fn rank(&self) -> u128 {
        u128::from(self.id)
    }
}

// Puts an id among them, or takes it away. It takes no memory.
pub(crate) fn move_live(live: &mut BlockRows<LiveId>, id: u64, is_live: bool)
    requires { is_live ≡ true → 1 ≤ live.old.spare }
    ensures rows { live.new.rows ≡ (if is_live then with_row live_rank live.old.rows (record { id = id }) else without live_rank live.old.rows id) }
    ensures room { is_live ≡ false → live.new.spare ≡ live.old.spare }
{
    let rank = u128::from(id);
    if !is_live {
        live.remove(rank);
        return;
    }
    if live.get(rank).is_none() {
        live.add(LiveId { id });
    }
}

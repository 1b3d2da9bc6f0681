ghost use Rattle.std.specs.Prelude.{◌≡◌, ℕ, ◌≤◌, length, slice_index};
ghost use Rattle.sat_base.specs.Outside.{raised};
ghost use Rattle.bw_decode.specs.Near.{IsNearData, Rises};

use crate::outcome::Column;
use crate::scratch::Scratch;

/// Decodes a column of r values: finds the `k` data bytes whose codeword differs from the values at
/// no more than (r - k) / 2 of the points, and writes them to `out`. Where there are none, what
/// `out` holds afterwards is left open. It takes no memory.
///
/// Value i is what was read as the share whose index is point i. The points rise. The method is
/// that of Berlekamp and Welch ("Error correction for algebraic block codes", US patent 4633470,
/// 1986), as in textbooks of coding theory.
pub fn column(scratch: &mut Scratch, points: &[u8], values: &[u8], k: u8, out: &mut [u8]) -> Column
    requires lengths { length points.now ≡ length values.now }
    requires rising { Rises points.now }
    requires k { (1 ≤ k) × (k ≤ length points.now) }
    requires room { length points.now ≤ scratch.old.points }
    requires out { length out.old ≡ k }
    ensures near { result ≡ Column.Near → IsNearData (length points.now) k
        (slice_index points.now) (slice_index values.now) (slice_index out.new) }
    ensures unclear { result ≡ Column.Unclear → (d : ℕ → ℕ)
        → IsNearData (length points.now) k (slice_index points.now) (slice_index values.now) d
        → ⊥ }
    ensures solves { scratch.new.solves ≡ raised scratch.old.solves }
    ensures counted { scratch.old.solves ≤ scratch.new.solves }
    ensures points { scratch.new.points ≡ scratch.old.points }
{
    let radius = (points.len() - usize::from(k)) / 2;
    scratch.decode(radius, points, values, out)
}

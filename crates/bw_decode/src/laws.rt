//! A law of the decoding, as the contract of a function that does nothing.

ghost use Rattle.std.specs.Prelude.{◌≡◌, ℕ, ◌*◌, ◌<◌, ◌≤◌, List, length, All};
ghost use Rattle.sat_base.specs.declared.items.Share.{Share};
ghost use Rattle.bw_decode.specs.Altered.{indexes_of};
ghost use Rattle.bw_decode.specs.Near.{IsNear, Rises};

/// Decoding is unique: two stripes that are near the same answers are the same. A stripe is k rows
/// of size bytes. The indexes of the answers rise, and are points of the field, which has 256.
pub fn one_near_stripe()
    ensures { (k size : ℕ) (s t : List ℕ) (answers : List Share) → k ≤ 256
        → Rises (indexes_of answers) → All (λ j. j < 256) (indexes_of answers)
        → length s ≡ k * size → All (λ b. b < 256) s
        → length t ≡ k * size → All (λ b. b < 256) t
        → IsNear k size s answers → IsNear k size t answers → s ≡ t }
{}

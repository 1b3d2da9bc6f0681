//! Laws of polynomials over the field, as contracts of functions that do nothing. A polynomial is
//! the list of its coefficients, which are bytes, from the lowest power up; one below degree k has
//! a list of length k.

ghost use Rattle.std.specs.Prelude.{◌≡◌, ◌≢◌, ℕ, ◌<◌, List, length, slice_index, All, Any};
ghost use Rattle.gf_linear.specs.Polynomial.{value, Bytes, Distinct};

/// Values at k distinct points fix one polynomial below degree k: two that agree at the points have
/// the same coefficients, and for any values there is one that has them (Lagrange's interpolation:
/// Lidl and Niederreiter, Introduction to Finite Fields, chapter 1).
pub fn one_polynomial()
    ensures only { (c d points : List ℕ) → Bytes c → Bytes d → Bytes points → Distinct points
        → length c ≡ length points → length d ≡ length points
        → All (λ x. value c x ≡ value d x) points → c ≡ d }
    ensures exists { (points values : List ℕ) → Bytes points → Bytes values → Distinct points
        → length values ≡ length points
        → (c : List ℕ) × (length c ≡ length points) × Bytes c
        × ((i : ℕ) → i < length points
        → value c (slice_index points i) ≡ slice_index values i) }
{}

/// A polynomial below degree k that is not zero has fewer than k distinct roots (Lidl and
/// Niederreiter, Introduction to Finite Fields, chapter 1).
pub fn few_roots()
    ensures { (c roots : List ℕ) → Bytes c → Any (λ a. a ≢ 0) c → Bytes roots → Distinct roots
        → All (λ x. value c x ≡ 0) roots → length roots < length c }
{}

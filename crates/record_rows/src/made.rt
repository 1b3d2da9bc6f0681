// What is made of fields: records of several fields, and numbers within bounds.
ghost use Rattle.std.specs.Prelude.{◌≡◌, ◌≢◌, ◌≤◌, ◌++◌, ℕ, List, length, take, Ok, Err, Some, IfOk, IfSome};
ghost use Rattle.record_rows.specs.declared.coded.Unread.{Unread};

use crate::coded::{Coded, Unread};
use std::alloc::Global;

/// What is made of fields that can be read.
pub(crate) trait Made: Drop {
    type Fields: Coded;

    /// What it is made of, in the order in which that is spelled.
    ghost fields: { Self → Self.Fields };

    /// Its bytes.
    ghost bytes_of: { Self → List ℕ };

    /// The bounds beside those of the fields.
    ghost allows: { Self → Type 0 } = { λ _. Unit {0} };

    /// What is made of these fields, if the bounds allow it.
    fn of(given: Self::Fields) -> Option<Self>
        requires { Self.Fields.fits given }
        ensures allows { IfSome result allows }
        ensures fields { IfSome result (λ x. fields x ≡ given) }
        ensures only { (x : Self) → allows x → fields x ≡ given → result ≡ Some x };

    /// The bytes are those of the fields, one behind the other.
    ghost spelled: { (x : Self) → Self.Fields.spelling (fields x) ≡ bytes_of x };
}

/// Reads the fields from the front, and makes the whole.
pub(crate) fn take_made<T: Made>(alloc: Global, bytes: &[u8]) -> Result<(T, usize), Unread>
    ensures fits { IfOk result (λ r. T.Fields.fits (T.fields r.0)) }
    ensures allows { IfOk result (λ r. T.allows r.0) }
    ensures size { IfOk result (λ r. r.1 ≤ length bytes.now) }
    ensures found { IfOk result (λ r. take r.1 bytes.now ≡ T.bytes_of r.0) }
    ensures only { (x : T) (rest : List ℕ) → T.Fields.fits (T.fields x) → T.allows x
        → bytes.now ≡ T.bytes_of x ++ rest → result ≢ Err Unread.NoMemory
        → result ≡ Ok (x, length (T.bytes_of x)) }
{
    let (fields, size) = T::Fields::take(alloc, bytes)?;
    match T::of(fields) {
        Some(x) => Ok((x, size)),
        None => Err(Unread::Form),
    }
}

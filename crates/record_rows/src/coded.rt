// What has one spelling as bytes, and is read from the front of bytes exactly where they begin so.
ghost use Rattle.std.specs.Prelude.{◌≡◌, ◌≢◌, ◌≤◌, ◌++◌, [], ℕ, List, length, take, Ok, Err, IfOk, refl};
ghost use Rattle.record_rows.specs.Laws.{AreApart, StandByRank};
ghost use Rattle.record_rows.specs.declared.coded.Unread.{Unread};

use sat_base::NoMemory;
use std::alloc::Global;

/// Why nothing is read.
#[derive(Clone, Copy)]
pub(crate) enum Unread {
    /// The bytes begin with no spelling.
    Form,
    /// There is no memory.
    NoMemory,
}

/// What has one spelling as bytes.
pub(crate) trait Spelled {
    /// The bytes.
    ghost spelling: { Self → List ℕ };

    /// Its lists have at most 128 items, where it has any.
    ghost is_short: { Self → Type 0 } = { λ _. Unit {0} };

    /// Writes the bytes behind others.
    fn put(&self, out: &mut Vec<u8>) -> Result<(), NoMemory>
        requires { is_short self.now }
        ensures { IfOk result (λ _. out.new.items ≡ out.old.items ++ spelling self.now) };
}

/// What is read from the front of bytes exactly where they begin with its spelling.
pub(crate) trait Coded: Spelled + Drop {
    /// It is within the bounds.
    ghost fits: { Self → Type 0 };

    /// Reads one from the front, and tells how many bytes it has.
    fn take(alloc: Global, bytes: &[u8]) -> Result<(Self, usize), Unread>
        ensures fits { IfOk result (λ r. fits r.0) }
        ensures size { IfOk result (λ r. r.1 ≤ length bytes.now) }
        ensures found { IfOk result (λ r. take r.1 bytes.now ≡ Self.spelling r.0) }
        ensures only { (x : Self) (rest : List ℕ) → fits x → bytes.now ≡ Self.spelling x ++ rest
            → result ≢ Err Unread.NoMemory → result ≡ Ok (x, length (Self.spelling x)) };

    /// Where the same bytes begin with two spellings, both are of one value.
    ghost apart: { AreApart Self.spelling fits };

    /// Something is within the bounds.
    ghost some: { (x : Self) × fits x };
}

/// What stands in the order of its bytes.
pub(crate) trait Ordered: Coded {
    /// The number by which it stands.
    ghost rank: { Self → ℕ };

    ghost order: { StandByRank Self.spelling Self.fits rank };
}

impl<T: Spelled> Spelled for &T {
    ghost spelling = { λ x. T.spelling x.now };

    ghost is_short = { λ x. T.is_short x.now };

    fn put(&self, out: &mut Vec<u8>) -> Result<(), NoMemory> {
        (**self).put(out)
    }
}

impl Spelled for () {
    ghost spelling = { λ _. [] };

    fn put(&self, _out: &mut Vec<u8>) -> Result<(), NoMemory> {
        Ok(())
    }
}

impl Coded for () {
    ghost fits = { λ _. Unit {0} };

    fn take(_alloc: Global, _bytes: &[u8]) -> Result<(Self, usize), Unread> {
        Ok(((), 0))
    }

    ghost apart = { record { one = λ x y r s f g e. (refl, e) } };

    ghost some = { (tt, tt) };
}

impl Ordered for () {
    ghost rank = { λ _. 0 };

    ghost order = { record { long = λ x y. refl; order = λ x y f g. refl } };
}

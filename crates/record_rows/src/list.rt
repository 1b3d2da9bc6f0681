// Lists: a byte that counts the items, and the items.
ghost use Rattle.std.specs.Prelude.{◌≡◌, ◌≢◌, ◌≤◌, ◌<◌, ◌++◌, ◌∷◌, [], ℕ, List, All, length, take, Ok, Err, IfOk};
ghost use Rattle.std.specs.List.{flat_map};
ghost use Rattle.sat_base.specs.declared.limits.TheConstants as limits;
ghost use Rattle.record_rows.specs.Numbers.{listed};
ghost use Rattle.record_rows.specs.Laws.Apart.{listed_apart, nothing_listed};
ghost use Rattle.record_rows.specs.declared.coded.Unread.{Unread};

use crate::coded::{Coded, Spelled, Unread};
use sat_base::{Items, NoMemory, limits};
use std::alloc::Global;

// Writes items, one behind the other.
fn put_items<T: Spelled>(items: &[T], out: &mut Vec<u8>) -> Result<(), NoMemory>
    requires { All T.is_short items.now }
    ensures { IfOk result (λ _. out.new.items ≡ out.old.items ++ flat_map T.spelling items.now) }
{
    for item in items {
        item.put(out)?;
    }
    Ok(())
}

// Reads so many items from the front, and tells how many bytes they have.
fn take_items<T: Coded>(
    alloc: Global,
    bytes: &[u8],
    count: usize,
) -> Result<(Items<T>, usize), Unread>
    ensures number { IfOk result (λ r. length r.0 ≡ count) }
    ensures fits { IfOk result (λ r. All T.fits r.0) }
    ensures size { IfOk result (λ r. r.1 ≤ length bytes.now) }
    ensures found { IfOk result (λ r. take r.1 bytes.now ≡ flat_map T.spelling r.0) }
    ensures only { (xs : List T) (rest : List ℕ) → length xs ≡ count → All T.fits xs
        → bytes.now ≡ flat_map T.spelling xs ++ rest → result ≢ Err Unread.NoMemory
        → result ≡ Ok (xs, length (flat_map T.spelling xs)) }
{
    let mut items = Vec::new(alloc);
    let mut at = 0;
    for _i in 0..count {
        let (item, size) = T::take(alloc, &bytes[at..])?;
        if items.push(item).is_err() {
            return Err(Unread::NoMemory);
        }
        at += size;
    }
    Ok((Items::of(items), at))
}

impl<T: Spelled> Spelled for Items<T> {
    ghost spelling = { listed T.spelling };

    ghost is_short = { λ items. (length items ≤ limits.PLACES) × All T.is_short items };

    fn put(&self, out: &mut Vec<u8>) -> Result<(), NoMemory> {
        (self.len() as u8).put(out)?;
        put_items(self.as_slice(), out)
    }
}

impl<T: Coded> Coded for Items<T> {
    ghost fits = { λ items. (length items ≤ limits.PLACES) × All T.fits items };

    fn take(alloc: Global, bytes: &[u8]) -> Result<(Self, usize), Unread> {
        let (count, front) = u8::take(alloc, bytes)?;
        if count > limits::PLACES {
            return Err(Unread::Form);
        }
        let (items, size) = take_items(alloc, &bytes[front..], count as usize)?;
        Ok((items, front + size))
    }

    ghost apart = { listed_apart limits.PLACES T.apart };

    ghost some = { nothing_listed limits.PLACES T.fits };
}

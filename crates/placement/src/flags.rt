// Flags in a row that know how many of them are set, and where the k-th of these stands: `select` on a bit
// vector (Jacobson, "Space-efficient Static Trees and Graphs", 1989), with a count for each block of flags.
ghost use Rattle.std.specs.Prelude.{◌≡◌, ℕ, ◌+◌, ◌*◌, ◌<◌, ◌≤◌, Bool, true, false, List, length, slice_set, slice_index, slice_index_or, IfOk};
ghost use Rattle.placement.specs.Flags.{rank, count, IsCounted};

use sat_base::NoMemory;
use std::alloc::Global;
use std::marker::Model;

// How many flags share a count. Of 65536 flags there are as many counts.
const BLOCK: usize = 256;

// Flags in a row. Contracts see their list.
//
// Setting one down costs one step. To find the k-th that is set costs a step for each block and each flag of
// one block.
#[derive(Drop)]
pub struct Flags {
    flags: Vec<bool>,
    // How many are set in each block.
    counts: Vec<usize>,
    // How many are set in all.
    total: usize,
}

impl Model for Flags {
    ghost Value = { List Bool };

    ghost view = { λ f. f.flags.items };

    ghost invariant = { λ f. IsCounted f.flags.items f.counts.items f.total };
}

impl Flags {
    // These flags.
    pub fn of(alloc: Global, flags: Vec<bool>) -> Result<Self, NoMemory>
        ensures { IfOk result (λ made. made ≡ flags.items) }
    {
        let blocks = flags.len() / BLOCK + 1;
        let mut counts = Vec::with_capacity(alloc, blocks)?;
        let mut total = 0;
        for block in 0..blocks {
            let start = block * BLOCK;
            let end = flags.len().min(start + BLOCK);
            let count = count_set(&flags[start..end]);
            counts.push_reserved(count);
            total += count;
        }
        Ok(Flags {
            flags,
            counts,
            total,
        })
    }

    // How many are set.
    pub fn count(&self) -> usize
        ensures { result ≡ count self.now }
    {
        self.total
    }

    // The place of the k-th that is set, counted from 0.
    pub fn select(&self, k: usize) -> usize
        requires { k < count self.now }
        ensures set { slice_index_or self.now result false ≡ true }
        ensures before { rank result self.now ≡ k }
    {
        let mut left = k;
        for (block, count) in self.counts.iter().enumerate() {
            if left < *count {
                return select_from(self.flags.as_slice(), block * BLOCK, left);
            }
            left -= *count;
        }
        self.flags.len()
    }

    // Sets one down.
    pub fn clear(&mut self, at: usize)
        requires { at < length self.old }
        ensures { self.new ≡ slice_set self.old at false }
    {
        if self.flags[at] {
            self.flags[at] = false;
            self.counts[at / BLOCK] -= 1;
            self.total -= 1;
        }
    }
}

// How many flags are set.
fn count_set(flags: &[bool]) -> usize
    ensures { result ≡ count flags.now }
{
    let mut count = 0;
    for flag in flags {
        if *flag {
            count += 1;
        }
    }
    count
}

// The place of the k-th flag from `start` on that is set.
fn select_from(flags: &[bool], start: usize, k: usize) -> usize
    requires { rank start flags.now + k < count flags.now }
    ensures set { slice_index_or flags.now result false ≡ true }
    ensures before { rank result flags.now ≡ rank start flags.now + k }
{
    let mut left = k;
    for at in start..flags.len() {
        if flags[at] {
            if left == 0 {
                return at;
            }
            left -= 1;
        }
    }
    flags.len()
}

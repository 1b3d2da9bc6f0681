// Numbers, the most significant byte first, and hashes.
ghost use Rattle.std.specs.Prelude.{◌≡◌, ◌≤◌, ◌<◌, ◌++◌, ◌∷◌, ◌/◌, ◌%◌, ◌^◌, [], length, take, replicate};
ghost use Rattle.std.proofs.Common.{rules};
ghost use Rattle.record_rows.specs.Numbers.{be8, be16, be32, be64, be128, IsU8, IsU16, IsU32, IsU64, IsU128, IsHash};
ghost use Rattle.record_rows.specs.Laws.Apart.{be8_apart, be16_apart, be32_apart, be64_apart, be128_apart, hash_apart, some_hash};

use crate::coded::{Coded, Spelled, Unread};
use sat_base::NoMemory;
use std::alloc::Global;

impl Spelled for u8 {
    ghost spelling = { be8 };

    fn put(&self, out: &mut Vec<u8>) -> Result<(), NoMemory> {
        out.push(*self)?;
        Ok(())
    }
}

impl Coded for u8 {
    ghost fits = { IsU8 };

    fn take(_alloc: Global, bytes: &[u8]) -> Result<(Self, usize), Unread> {
        match bytes.first() {
            Some(byte) => Ok((*byte, 1)),
            None => Err(Unread::Form),
        }
    }

    ghost apart = { be8_apart };

    ghost some = { (0, Prim.search rules) };
}

impl Spelled for u16 {
    ghost spelling = { be16 };

    #[tactic(auto, unfolding(crate::specs::Numbers::be16))]
    fn put(&self, out: &mut Vec<u8>) -> Result<(), NoMemory> {
        out.extend_from_slice(&self.to_be_bytes())?;
        Ok(())
    }
}

impl Coded for u16 {
    ghost fits = { IsU16 };

    #[tactic(auto, unfolding(crate::specs::Numbers::be16))]
    fn take(_alloc: Global, bytes: &[u8]) -> Result<(Self, usize), Unread> {
        if bytes.len() < 2 {
            return Err(Unread::Form);
        }
        Ok((u16::from_be_bytes([bytes[0], bytes[1]]), 2))
    }

    ghost apart = { be16_apart };

    ghost some = { (0, Prim.search rules) };
}

impl Spelled for u32 {
    ghost spelling = { be32 };

    #[tactic(auto, unfolding(crate::specs::Numbers::be32))]
    fn put(&self, out: &mut Vec<u8>) -> Result<(), NoMemory> {
        out.extend_from_slice(&self.to_be_bytes())?;
        Ok(())
    }
}

impl Coded for u32 {
    ghost fits = { IsU32 };

    #[tactic(auto, unfolding(crate::specs::Numbers::be32))]
    fn take(_alloc: Global, bytes: &[u8]) -> Result<(Self, usize), Unread> {
        if bytes.len() < 4 {
            return Err(Unread::Form);
        }
        Ok((
            u32::from_be_bytes([bytes[0], bytes[1], bytes[2], bytes[3]]),
            4,
        ))
    }

    ghost apart = { be32_apart };

    ghost some = { (0, Prim.search rules) };
}

impl Spelled for u64 {
    ghost spelling = { be64 };

    #[tactic(auto, unfolding(crate::specs::Numbers::be64))]
    fn put(&self, out: &mut Vec<u8>) -> Result<(), NoMemory> {
        out.extend_from_slice(&self.to_be_bytes())?;
        Ok(())
    }
}

impl Coded for u64 {
    ghost fits = { IsU64 };

    #[tactic(auto, unfolding(crate::specs::Numbers::be64))]
    fn take(_alloc: Global, bytes: &[u8]) -> Result<(Self, usize), Unread> {
        if bytes.len() < 8 {
            return Err(Unread::Form);
        }
        let number = u64::from_be_bytes([
            bytes[0], bytes[1], bytes[2], bytes[3], bytes[4], bytes[5], bytes[6], bytes[7],
        ]);
        Ok((number, 8))
    }

    ghost apart = { be64_apart };

    ghost some = { (0, Prim.search rules) };
}

/// Its upper half, and its lower one.
impl Spelled for u128 {
    ghost spelling = { be128 };

    #[tactic(auto, unfolding(crate::specs::Numbers::be128))]
    fn put(&self, out: &mut Vec<u8>) -> Result<(), NoMemory> {
        let high = (*self / (1 << 64)) as u64;
        let low = (*self % (1 << 64)) as u64;
        (high, low).put(out)
    }
}

impl Coded for u128 {
    ghost fits = { IsU128 };

    #[tactic(auto, unfolding(crate::specs::Numbers::be128))]
    fn take(alloc: Global, bytes: &[u8]) -> Result<(Self, usize), Unread> {
        let ((high, low), size) = <(u64, u64)>::take(alloc, bytes)?;
        Ok((high as u128 * (1 << 64) + low as u128, size))
    }

    ghost apart = { be128_apart };

    ghost some = { (0, Prim.search rules) };
}

/// A hash, or a secret.
impl Spelled for [u8; 32] {
    ghost spelling = { λ bytes. bytes };

    fn put(&self, out: &mut Vec<u8>) -> Result<(), NoMemory> {
        out.extend_from_slice(self)?;
        Ok(())
    }
}

impl Coded for [u8; 32] {
    ghost fits = { IsHash };

    fn take(_alloc: Global, bytes: &[u8]) -> Result<(Self, usize), Unread> {
        if bytes.len() < 32 {
            return Err(Unread::Form);
        }
        let mut hash = [0u8; 32];
        hash.copy_from_slice(&bytes[..32]);
        Ok((hash, 32))
    }

    ghost apart = { hash_apart };

    ghost some = { some_hash };
}

// HMAC over SHA-256, by RFC 2104.
//
// The key is hashed first in both of HMAC's hashes and fills one block of each. So a key that makes many
// tags is kept as the two hash states behind that block, and each tag costs two blocks less.
ghost use Rattle.std.specs.Prelude.{◌≡◌, ◌≤◌, ℕ, List, length};
ghost use Rattle.order_limits.specs.Hmac.{hmac, padded, masked};
ghost use Rattle.order_limits.specs.KeyedHash.{IsKeyedBy};

use crate::bytes::write_at;
use sha2::{Digest, Sha256};

const BLOCK_LEN: usize = 64;

const INNER_MASK: u8 = 0x36;

const OUTER_MASK: u8 = 0x5c;

/// A key, kept as HMAC's two hash states.
#[derive(Drop)]
pub(crate) struct KeyedHash {
    pub(crate) inner: Sha256,
    pub(crate) outer: Sha256,
}

// Combines each byte with the mask.
fn mask_all(bytes: &mut [u8], mask: u8)
    ensures { bytes.new ≡ masked mask bytes.old }
{
    for byte in bytes.iter_mut() {
        *byte ^= mask;
    }
}

// The key as a block, each byte combined with the mask.
fn masked_block(key: &[u8], mask: u8) -> [u8; BLOCK_LEN]
    requires { length key.now ≤ 64 }
    ensures { result ≡ masked mask (padded key.now) }
{
    let mut block = [0u8; BLOCK_LEN];
    write_at(&mut block, 0, key);
    mask_all(&mut block, mask);
    block
}

impl KeyedHash {
    /// The states of a key of at most 64 bytes.
    pub(crate) fn new(key: &[u8]) -> Self
        requires { length key.now ≤ 64 }
        ensures { IsKeyedBy result key.now }
    {
        let mut inner = Sha256::new();
        inner.update(masked_block(key, INNER_MASK));
        let mut outer = Sha256::new();
        outer.update(masked_block(key, OUTER_MASK));
        KeyedHash { inner, outer }
    }

    /// The tag of a text.
    #[tactic(auto, unfolding(crate::specs::Hmac::hmac))]
    pub(crate) fn tag(&self, text: &[u8]) -> [u8; 32]
        ensures { (key : List ℕ) → IsKeyedBy self.now key → result ≡ hmac key text.now }
    {
        let mut inner = self.inner.clone().unwrap();
        inner.update(text);
        let mut outer = self.outer.clone().unwrap();
        outer.update(inner.finalize());
        outer.finalize()
    }
}

/// The HMAC-SHA-256 tag of a text, by RFC 2104 over FIPS 180-4. The key has at most 64 bytes.
pub fn hmac(key: &[u8], text: &[u8]) -> [u8; 32]
    requires { length key.now ≤ 64 }
    ensures { result ≡ hmac key.now text.now }
{
    KeyedHash::new(key).tag(text)
}

// The keys that are derived from the satellite's secret.
ghost use Rattle.std.specs.Prelude.{◌≡◌, ℕ, List, length};
ghost use Rattle.order_limits.specs.Hmac.{hmac};
ghost use Rattle.order_limits.specs.KeyedHash.{IsKeyedBy};

use crate::mac::KeyedHash;
use sat_base::{CustomerId, NodeId, Serial};
use std::marker::Model;

/// The satellite's secret of 32 bytes, from which each key is derived. Contracts see its bytes.
#[derive(Drop)]
pub struct Keys {
    secret: [u8; 32],
    hash: KeyedHash,
}

impl Model for Keys {
    ghost Value = { List ℕ };

    ghost view = { λ k. k.secret };

    ghost invariant = { λ k. (length k.secret ≡ 32) × IsKeyedBy k.hash k.secret };
}

impl Keys {
    ghost use Rattle.order_limits.specs.Keys.{node_key, serial_key, customer_key, operator_key};

    /// The keys of a secret.
    pub fn new(secret: [u8; 32]) -> Self
        ensures { result ≡ secret }
    {
        let hash = KeyedHash::new(&secret);
        Keys { secret, hash }
    }

    // The key that is derived from these bytes.
    fn derived(&self, text: &[u8]) -> [u8; 32]
        ensures { result ≡ hmac self.now text.now }
    {
        self.hash.tag(text)
    }

    /// The key of a node, which tags its limits.
    #[tactic(auto, unfolding(crate::specs::Keys::node_key))]
    pub fn node(&self, id: NodeId) -> [u8; 32]
        ensures { result ≡ node_key self.now id }
    {
        let n = id.0.to_be_bytes();
        self.derived(&[1, n[0], n[1], n[2], n[3]])
    }

    /// The key of a serial, which tags the orders under it.
    #[tactic(auto, unfolding(crate::specs::Keys::serial_key))]
    pub fn serial(&self, serial: Serial) -> [u8; 32]
        ensures { result ≡ serial_key self.now serial }
    {
        let n = serial.0.to_be_bytes();
        self.derived(&[2, n[0], n[1], n[2], n[3], n[4], n[5], n[6], n[7]])
    }

    /// The key of a customer, which its requests show.
    #[tactic(auto, unfolding(crate::specs::Keys::customer_key))]
    pub fn customer(&self, id: CustomerId) -> [u8; 32]
        ensures { result ≡ customer_key self.now id }
    {
        let n = id.0.to_be_bytes();
        self.derived(&[3, n[0], n[1], n[2], n[3]])
    }

    /// The key of the operator, which its requests show.
    #[tactic(auto, unfolding(crate::specs::Keys::operator_key))]
    pub fn operator(&self) -> [u8; 32]
        ensures { result ≡ operator_key self.now }
    {
        self.derived(&[4])
    }
}

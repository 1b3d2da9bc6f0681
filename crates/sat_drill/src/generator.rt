// The words of a drill.
ghost use Rattle.std.specs.Prelude.{◌≡◌, IfOk, length, vec_len};
ghost use Rattle.sat_drill.specs.Generator.{next_state, word_of};

use sat_base::{Items, NoMemory, Words64};
use std::alloc::Global;

/// The generator splitmix64: the same words from the same start.
#[derive(Clone, Copy)]
pub struct Generator {
    state: u64,
}

impl Generator {
    /// The generator that begins with this number.
    pub fn of(start: u64) -> Self
        ensures { result.state ≡ start }
    {
        Generator { state: start }
    }

    /// The next word.
    #[tactic(auto, unfolding(crate::specs::Generator::word_of))]
    pub fn word(&mut self) -> u64
        ensures state { self.new.state ≡ next_state self.old.state }
        ensures word { result ≡ word_of self.new.state }
    {
        self.state = self.state.wrapping_add(0x9E37_79B9_7F4A_7C15);
        let z = self.state;
        let z = (z ^ (z >> 30)).wrapping_mul(0xBF58_476D_1CE4_E5B9);
        let z = (z ^ (z >> 27)).wrapping_mul(0x94D0_49BB_1331_11EB);
        z ^ (z >> 31)
    }

    /// The next words, so many. It fails only where memory runs out.
    pub fn words(&mut self, alloc: Global, number: usize) -> Result<Words64, NoMemory>
        ensures { IfOk result (λ words. length words ≡ number) }
    {
        let mut words = Vec::from_elem(alloc, 0, number)?;
        for word in words.iter_mut() {
            *word = self.word();
        }
        Ok(Items::of(words))
    }

    /// Bytes, each the low one of a word. It fails only where memory runs out.
    pub fn bytes(&mut self, alloc: Global, number: usize) -> Result<Vec<u8>, NoMemory>
        ensures { IfOk result (λ bytes. vec_len bytes ≡ number) }
    {
        let mut bytes = Vec::from_elem(alloc, 0, number)?;
        for byte in bytes.iter_mut() {
            *byte = (self.word() % 256) as u8;
        }
        Ok(bytes)
    }
}

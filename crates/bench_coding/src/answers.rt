// The answers that are decoded.
ghost use Rattle.std.specs.Prelude.{◌≡◌, ◌*◌, length, IfOk};

use rs_stripe::encode_share;
use sat_base::{Bytes, Scheme, Share};
use std::alloc::{AllocError, Global};

/// Which bytes of an altered answer are altered.
#[derive(Clone, Copy, PartialEq, Eq)]
pub enum Spread {
    /// Each of them.
    EveryByte,
    /// One, in another column for each answer.
    OneByte,
    /// Five that cancel in every combination of columns that the decoder tries, in other columns for each answer.
    Cancelling,
}

// The coefficients of the polynomial whose roots are the four bases of the decoder's combinations.
const ROOTS: [u8; 5] = [90, 167, 151, 107, 1];

// Random bytes, by a linear congruence (Knuth, "The Art of Computer Programming", 3.3.4).
#[derive(Drop)]
struct Random {
    state: u32,
}

impl Random {
    fn byte(&mut self) -> u8 {
        self.state = self.state.wrapping_mul(1664525).wrapping_add(1013904223);
        (self.state >> 24) as u8
    }
}

/// So many random bytes, the same in each run.
pub fn sample(alloc: Global, len: usize) -> Result<Vec<u8>, AllocError>
    ensures { IfOk result (λ bytes. length bytes.items ≡ len) }
{
    let mut bytes = Vec::from_elem(alloc, 0, len)?;
    let mut random = Random { state: 1 };
    for byte in bytes.iter_mut() {
        *byte = random.byte();
    }
    Ok(bytes)
}

// Alters each byte, or those of the answer of this place among the altered ones.
fn alter(bytes: &mut [u8], spread: Spread, place: usize, random: &mut Random) {
    if spread == Spread::Cancelling {
        return add_roots(bytes, place.wrapping_mul(ROOTS.len()));
    }
    for c in 0..bytes.len() {
        if spread == Spread::EveryByte || c == place {
            bytes[c] ^= random.byte() | 1;
        }
    }
}

// Adds the coefficients from this column on.
fn add_roots(bytes: &mut [u8], column: usize) {
    for d in 0..ROOTS.len() {
        if let Some(byte) = bytes.get_mut(column.wrapping_add(d)) {
            *byte ^= ROOTS[d];
        }
    }
}

/// The answers that the scheme wants. Each third is altered, but at most `altered` of them.
pub fn altered_answers(
    alloc: Global,
    scheme: &Scheme,
    stripe: &[u8],
    altered: u8,
    spread: Spread,
) -> Result<Vec<Share>, AllocError>
    requires { length stripe.now ≡ scheme.now.k * scheme.now.share }
{
    let mut random = Random { state: 5 };
    let mut answers = Vec::new(alloc);
    for index in 0..scheme.o {
        let mut bytes = Vec::from_elem(alloc, 0, usize::from(scheme.share))?;
        encode_share(scheme, stripe, index, bytes.as_mut_slice());
        if index % 3 == 0 && index / 3 < altered {
            alter(
                bytes.as_mut_slice(),
                spread,
                usize::from(index / 3),
                &mut random,
            );
        }
        answers.push(Share {
            index,
            bytes: Bytes::of(bytes),
        })?;
    }
    Ok(answers)
}

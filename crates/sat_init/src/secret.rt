// The secret of a new store.
ghost use Rattle.std.specs.Prelude.{◌≡◌, ◌≤◌, ◌⊎◌, ◌∷◌, [], IfOk, MatchResult};
ghost use Rattle.std.specs.List.{flat_map};
ghost use Rattle.sat_base.specs.Outside.{Rose, with_front};
ghost use Rattle.record_rows.specs.Numbers.{be64};
ghost use Rattle.sat_init.specs.Init.{IsDrawn, IsSecret};

use crate::setup::InitErr;
use sat_base::{Drawn, NoMemory, Words};
use std::alloc::Global;

// The next random word.
fn draw<W: Words>(words: &mut W) -> Result<u64, InitErr>
    ensures word { MatchResult result
        (λ word. (W.left words.old ≡ with_front (word ∷ []) (W.left words.new)) × (W.faults words.new ≡ W.faults words.old))
        (λ e. (e ≡ InitErr.WordsFault) × Rose (W.faults words.old) (W.faults words.new)) }
    ensures counts { W.faults words.old ≤ W.faults words.new }
{
    match words.word() {
        Drawn::Word(word) => Ok(word),
        Drawn::Failed => Err(InitErr::WordsFault),
    }
}

// The bytes of four words.
fn bytes_of(
    alloc: Global,
    first: u64,
    second: u64,
    third: u64,
    fourth: u64,
) -> Result<[u8; 32], NoMemory>
    ensures { IfOk result (λ bytes. bytes ≡ flat_map be64 (first ∷ second ∷ third ∷ fourth ∷ [])) }
{
    let mut bytes = Vec::new(alloc);
    bytes.extend_from_slice(&first.to_be_bytes())?;
    bytes.extend_from_slice(&second.to_be_bytes())?;
    bytes.extend_from_slice(&third.to_be_bytes())?;
    bytes.extend_from_slice(&fourth.to_be_bytes())?;
    let mut secret = [0u8; 32];
    secret.copy_from_slice(&bytes);
    Ok(secret)
}

// A secret of the next four words.
fn draw_secret<W: Words>(alloc: Global, words: &mut W) -> Result<[u8; 32], InitErr>
    ensures counts { W.faults words.old ≤ W.faults words.new }
    ensures secret { MatchResult result
        (λ secret. IsDrawn (W.left words.old) (W.left words.new) secret × (W.faults words.new ≡ W.faults words.old))
        (λ e. ((e ≡ InitErr.WordsFault) × Rose (W.faults words.old) (W.faults words.new))
        ⊎ ((e ≡ InitErr.NoMemory) × (W.faults words.new ≡ W.faults words.old))) }
{
    let first = draw(words)?;
    let second = draw(words)?;
    let third = draw(words)?;
    let fourth = draw(words)?;
    match bytes_of(alloc, first, second, third, fourth) {
        Ok(secret) => Ok(secret),
        Err(NoMemory) => Err(InitErr::NoMemory),
    }
}

/// The given secret, or one that is drawn.
pub(crate) fn secret_of<W: Words>(
    alloc: Global,
    given: Option<[u8; 32]>,
    words: &mut W,
) -> Result<[u8; 32], InitErr>
    ensures counts { W.faults words.old ≤ W.faults words.new }
    ensures secret { MatchResult result
        (λ secret. IsSecret given (W.left words.old) (W.left words.new) secret × (W.faults words.new ≡ W.faults words.old))
        (λ e. ((e ≡ InitErr.WordsFault) × Rose (W.faults words.old) (W.faults words.new))
        ⊎ ((e ≡ InitErr.NoMemory) × (W.faults words.new ≡ W.faults words.old))) }
{
    match given {
        Some(secret) => Ok(secret),
        None => draw_secret(alloc, words),
    }
}

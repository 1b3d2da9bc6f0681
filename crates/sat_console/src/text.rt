// Lines that are written.
ghost use Rattle.std.specs.Prelude.{◌≡◌, ◌++◌, IfOk, OnOk};
ghost use Rattle.sat_console.specs.Words.{numbered, numbered_text, store_text};

use itoa::Buffer;
use sat_base::NoMemory;
use std::alloc::Global;

/// Writes a word and a number.
#[tactic(auto, unfolding(crate::specs::Words::numbered))]
pub(crate) fn push_numbered(text: &mut Vec<u8>, word: &[u8], n: u64) -> Result<(), NoMemory>
    ensures { OnOk result (text.new.items ≡ text.old.items ++ numbered word.now n) }
{
    let mut buffer = Buffer::new();
    text.extend_from_slice(word)?;
    text.extend_from_slice(buffer.format(n).as_bytes())?;
    Ok(())
}

/// The line of a word and a number.
pub fn numbered_line(alloc: Global, word: &[u8], n: u64) -> Result<Vec<u8>, NoMemory>
    ensures { IfOk result (λ line. line.items ≡ numbered_text word.now n) }
{
    let mut line = Vec::new(alloc);
    push_numbered(&mut line, word, n)?;
    line.extend_from_slice(b"\n")?;
    Ok(line)
}

/// The line of a store that isn't one: the rule that it breaks, 0 where a row is no record, and the kind and the id of the
/// row or the record.
pub fn store_line(alloc: Global, rule: u8, kind: u8, id: &[u8]) -> Result<Vec<u8>, NoMemory>
    ensures { IfOk result (λ line. line.items ≡ store_text rule kind id.now) }
{
    let mut line = Vec::new(alloc);
    push_numbered(&mut line, b"error: bad-store ", u64::from(rule))?;
    push_numbered(&mut line, b" ", u64::from(kind))?;
    line.extend_from_slice(b" ")?;
    line.extend_from_slice(hex::encode(alloc, id)?.as_bytes())?;
    line.extend_from_slice(b"\n")?;
    Ok(line)
}

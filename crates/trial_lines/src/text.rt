// Bytes as text on a line: `\r`, `\n` and `\xHH` are bytes, and `<COUNT TEXT>` is a text so often.
use crate::{Fields, LineErr};
use std::alloc::Global;

fn digit(byte: u8) -> Result<u8, LineErr> {
    match byte {
        b'0'..=b'9' => Ok(byte - b'0'),
        b'a'..=b'f' => Ok(byte - b'a' + 10),
        _ => Err(LineErr::Bad),
    }
}

// The byte that stands behind a backslash, and what follows it.
fn escaped(text: &[u8]) -> Result<(u8, &[u8]), LineErr> {
    match text {
        [b'r', rest @ ..] => Ok((b'\r', rest)),
        [b'n', rest @ ..] => Ok((b'\n', rest)),
        [b'x', high, low, rest @ ..] => Ok((digit(*high)? << 4 | digit(*low)?, rest)),
        _ => Err(LineErr::Bad),
    }
}

// Adds the bytes of a text without repetitions.
fn add_plain(bytes: &mut Vec<u8>, text: &str) -> Result<(), LineErr> {
    for (i, part) in text.split('\\').enumerate() {
        if i == 0 {
            bytes.extend_from_slice(part.as_bytes())?;
        } else {
            let (byte, rest) = escaped(part.as_bytes())?;
            bytes.push(byte)?;
            bytes.extend_from_slice(rest)?;
        }
    }
    Ok(())
}

// Adds the bytes of `COUNT TEXT`.
fn add_repeated(bytes: &mut Vec<u8>, text: &str) -> Result<(), LineErr> {
    let mut fields = Fields::of_line(text, 0);
    let count: u64 = fields.number()?;
    for _ in 0..count {
        add_plain(bytes, fields.rest())?;
    }
    Ok(())
}

/// The bytes that a text says.
pub fn bytes_of(alloc: Global, text: &str) -> Result<Vec<u8>, LineErr> {
    let mut bytes = Vec::new(alloc);
    for (i, part) in text.split('<').enumerate() {
        if i == 0 {
            add_plain(&mut bytes, part)?;
        } else {
            let Some((repeated, behind)) = part.split_once('>') else {
                return Err(LineErr::Bad);
            };
            add_repeated(&mut bytes, repeated)?;
            add_plain(&mut bytes, behind)?;
        }
    }
    Ok(bytes)
}

/// Bytes as text, without repetitions.
pub fn text_of(alloc: Global, bytes: &[u8]) -> Result<String, LineErr> {
    let mut text = String::new(alloc);
    for byte in bytes {
        match *byte {
            b'\r' => text.push_str("\\r")?,
            b'\n' => text.push_str("\\n")?,
            b' '..=b'~' => text.push(char::from(*byte))?,
            other => text.push_str(format!(in alloc; "\\x{other:02x}")?.as_str())?,
        }
    }
    Ok(text)
}

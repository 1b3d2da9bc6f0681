// The bytes of fields, by their forms:
//
// - `4`: a number in so many bytes, the greatest first; `1+4`: such numbers with colons between
// - `[1+4]`: a byte that says how many, and so many of these
// - `hash`: 32 bytes in hexadecimal digits
// - `status`, `asked`, `done`: a name, and for the last two the fields behind it
use crate::fields::{Fields, LineErr};
use std::alloc::Global;

const STATUS: [&str; 4] = ["active", "disqualified", "exiting", "exited"];

// What was asked by a kept request: its name, its byte and its fields.
const ASKED: [&str; 6] = [
    "add-node 1 4 2 8",
    "add-customer 2",
    "begin 3 8",
    "commit 4 8 [1]",
    "get 5 8",
    "delete 6 8",
];

// And what was done.
const DONE: [&str; 5] = [
    "node 1 4",
    "customer 2 4",
    "offer 3 4 8 8 1 8 8 [1+4+4+2]",
    "committed 4 8",
    "deleted 5 8",
];

/// Adds a number in so many bytes, unless it is too great.
pub(crate) fn put_number(out: &mut Vec<u8>, width: &str, number: u128) -> Result<(), LineErr> {
    let width = width.parse::<usize>().map_err(|_| LineErr::Bad)?;
    let bytes = number.to_be_bytes();
    let Some(front) = bytes.len().checked_sub(width) else {
        return Err(LineErr::Bad);
    };
    let (above, kept) = bytes.split_at(front);
    if above.iter().any(|byte| *byte != 0) {
        return Err(LineErr::Bad);
    }
    Ok(out.extend_from_slice(kept)?)
}

// Adds numbers with colons between.
fn put_parts(out: &mut Vec<u8>, form: &str, parts: Fields<'_>) -> Result<(), LineErr> {
    let mut parts = parts;
    for width in form.split('+') {
        put_number(out, width, parts.number()?)?;
    }
    parts.end()
}

// Adds how many items there are, and each.
fn put_list(alloc: Global, out: &mut Vec<u8>, form: &str, list: Fields<'_>) -> Result<(), LineErr> {
    let mut list = list;
    let mut items = Vec::new(alloc);
    let mut count = 0u8;
    for _ in 0..u64::MAX {
        if list.is_done() {
            break;
        }
        put_parts(&mut items, form, list.parts()?)?;
        count = count.checked_add(1).ok_or(LineErr::Bad)?;
    }
    out.push(count)?;
    Ok(out.extend_from_slice(&items)?)
}

// Adds the byte of a name, and the fields behind it.
fn put_choice(
    alloc: Global,
    out: &mut Vec<u8>,
    choices: &[&'static str],
    fields: &mut Fields<'_>,
) -> Result<(), LineErr> {
    let name = fields.word()?;
    for choice in choices {
        let mut forms = choice.split(' ');
        if forms.next() == Some(name) {
            let byte = forms.next().unwrap_or("");
            put_number(out, "1", Fields::of_line(byte, 0).number()?)?;
            for form in forms {
                put_plain(alloc, out, form, fields)?;
            }
            return Ok(());
        }
    }
    Err(LineErr::Bad)
}

fn put_status(out: &mut Vec<u8>, name: &str) -> Result<(), LineErr> {
    let place = STATUS.iter().position(|status| *status == name);
    put_number(out, "1", place.ok_or(LineErr::Bad)? as u128)
}

// Adds a field of a form that names no choice.
fn put_plain(
    alloc: Global,
    out: &mut Vec<u8>,
    form: &str,
    fields: &mut Fields<'_>,
) -> Result<(), LineErr> {
    if let Some(list) = form.strip_prefix('[') {
        return put_list(alloc, out, list.trim_end_matches(']'), fields.list()?);
    }
    if form.contains('+') {
        return put_parts(out, form, fields.parts()?);
    }
    put_number(out, form, fields.number()?)
}

/// Adds the bytes of a field of this form, which the next words say.
pub(crate) fn put(
    alloc: Global,
    out: &mut Vec<u8>,
    form: &str,
    fields: &mut Fields<'_>,
) -> Result<(), LineErr> {
    match form {
        "hash" => Ok(out.extend_from_slice(&hash(fields)?)?),
        "status" => put_status(out, fields.word()?),
        "asked" => put_choice(alloc, out, &ASKED, fields),
        "done" => put_choice(alloc, out, &DONE, fields),
        _ => put_plain(alloc, out, form, fields),
    }
}

/// 32 bytes, as 64 hexadecimal digits.
pub(crate) fn hash(fields: &mut Fields<'_>) -> Result<[u8; 32], LineErr> {
    let mut hash = [0; 32];
    if hex::decode_to_slice(fields.word()?, &mut hash).is_err() {
        return Err(LineErr::Bad);
    }
    Ok(hash)
}

// Rows, one a line: the kind in decimal digits, and the id and the body in hexadecimal ones.
use crate::fields::{Fields, LineErr};
use sat_base::{Bytes, Change, Items, NoMemory, Row};
use std::alloc::Global;

// The next word, as bytes in hexadecimal digits. `-` is none.
fn bytes(alloc: Global, fields: &mut Fields<'_>) -> Result<Bytes, LineErr> {
    let mut behind = *fields;
    if behind.word()? == "-" {
        *fields = behind;
        return Ok(Items::of(Vec::new(alloc)));
    }
    Ok(Items::of(fields.hex(alloc)?))
}

/// The row of `KIND ID BODY`.
pub fn row(alloc: Global, fields: &mut Fields<'_>) -> Result<Row, LineErr> {
    let kind = fields.number()?;
    let id = bytes(alloc, fields)?;
    let body = bytes(alloc, fields)?;
    fields.end()?;
    Ok(Row { kind, id, body })
}

/// The removal of the row of `KIND ID`.
pub fn removal(alloc: Global, fields: &mut Fields<'_>) -> Result<Change, LineErr> {
    let kind = fields.number()?;
    let id = bytes(alloc, fields)?;
    fields.end()?;
    Ok(Change::Remove { kind, id })
}

fn put_bytes(alloc: Global, out: &mut String, bytes: &Bytes) -> Result<(), NoMemory> {
    out.push_str(" ")?;
    if bytes.is_empty() {
        out.push_str("-")?;
    } else {
        out.push_str(&hex::encode(alloc, bytes.as_slice())?)?;
    }
    Ok(())
}

/// How many rows there are, and a line for each.
pub fn told_rows(alloc: Global, rows: &[Row]) -> Result<String, NoMemory> {
    let count = rows.len();
    let mut text = format!(in alloc; "rows {count}")?;
    for row in rows {
        text.push_str("\n")?;
        text.push_str(&told_row(alloc, row)?)?;
    }
    Ok(text)
}

/// The line of a row.
pub fn told_row(alloc: Global, row: &Row) -> Result<String, NoMemory> {
    let kind = row.kind;
    let mut line = format!(in alloc; "{kind}")?;
    put_bytes(alloc, &mut line, &row.id)?;
    put_bytes(alloc, &mut line, &row.body)?;
    Ok(line)
}

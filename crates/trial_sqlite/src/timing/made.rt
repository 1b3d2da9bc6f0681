// The rows that are committed, and a check sum of rows.
use sat_base::{Bytes, Change, Row};
use std::alloc::{AllocError, Global};

/// A row as long as a settled order: an id of 12 bytes and a body of 17.
pub(crate) fn row(alloc: Global, number: u64, round: u8) -> Result<Row, AllocError> {
    let mut id = Vec::from_slice(alloc, number.to_be_bytes().as_slice())?;
    id.extend_from_slice(&[0, 0, 0, 7])?;
    let mut body = Vec::from_slice(alloc, &[round])?;
    body.extend_from_slice(&[9u8; 16])?;
    Ok(Row {
        kind: (number % 14) as u8 + 1,
        id: Bytes::of(id),
        body: Bytes::of(body),
    })
}

/// Changes that put so many rows, of consecutive numbers.
pub(crate) fn puts(
    alloc: Global,
    first: u64,
    count: u64,
    round: u8,
) -> Result<Vec<Change>, AllocError> {
    let mut changes = Vec::new(alloc);
    for k in 0..count {
        changes.push(Change::Put(row(alloc, first.wrapping_add(k), round)?))?;
    }
    Ok(changes)
}

fn mix(sum: u64, byte: u8) -> u64 {
    (sum ^ u64::from(byte)).wrapping_mul(0x0100_0000_01b3)
}

/// The FNV-1a sum of the rows: of each the kind, the id and the body.
pub(crate) fn sum_of(rows: &[Row]) -> u64 {
    let mut sum = 0xcbf2_9ce4_8422_2325;
    for row in rows {
        sum = mix(sum, row.kind);
        for byte in row.id.as_slice() {
            sum = mix(sum, *byte);
        }
        for byte in row.body.as_slice() {
            sum = mix(sum, *byte);
        }
    }
    sum
}

// Rows of the table as rows of a store.
ghost use Rattle.std.specs.Prelude.{◌≡◌, ◌++◌, ◌∷◌, [], map, pos, IsTrue, IfOk, IfSome};
ghost use Rattle.sqlite.specs.declared.types.Value.TheVariants.{Int};
ghost use Rattle.sqlite.specs.Order.{column};
ghost use Rattle.sat_base.specs.Rows.{entry, AreInOrder};
ghost use Rattle.keeper_sqlite.specs.Records.{entry_shown};
ghost use Rattle.keeper_sqlite.specs.Opened.{ShowByteKinds};

use sat_base::{Bytes, Row};
use sqlite::Error;
use std::alloc::Global;
use std::cmp::Ordering;

/// The rows, unless the kind of one isn't a byte or one doesn't come after the one before it.
pub(crate) fn rows_of(alloc: Global, rows: Vec<sqlite::Row>) -> Result<Option<Vec<Row>>, Error>
    ensures order { IfOk result (λ found. IfSome found (λ all. AreInOrder all.items)) }
    ensures same { IfOk result (λ found. IfSome found (λ all. map entry all.items ≡ map entry_shown rows.items)) }
    ensures kinds { IfOk result (λ found. IfSome found (λ _. ShowByteKinds rows.items)) }
{
    let mut all = Vec::with_capacity(alloc, rows.len())?;
    for row in rows {
        let Some(row) = row_of(&row)? else {
            return Ok(None);
        };
        if !follows(all.as_slice(), &row) {
            return Ok(None);
        }
        all.push(row)?;
    }
    Ok(Some(all))
}

/// A row of the table, unless its kind isn't a byte.
fn row_of(row: &sqlite::Row) -> Result<Option<Row>, Error>
    ensures same { IfOk result (λ found. IfSome found (λ out. entry out ≡ entry_shown row.now)) }
    ensures byte { IfOk result (λ found. IfSome found (λ out. column row.now 0 ≡ Int (pos out.kind))) }
{
    let kind: i64 = row.get(0)?;
    let id: Vec<u8> = row.get(1)?;
    let body: Vec<u8> = row.get(2)?;
    match u8::try_from(kind) {
        Ok(kind) => Ok(Some(Row {
            kind,
            id: Bytes::of(id),
            body: Bytes::of(body),
        })),
        Err(_) => Ok(None),
    }
}

/// Whether the row comes after all of these.
fn follows(all: &[Row], row: &Row) -> bool
    ensures { IsTrue result → AreInOrder all.now → AreInOrder (all.now ++ row.now ∷ []) }
{
    match all.last() {
        None => true,
        Some(last) => last.cmp_key(row.kind, row.id.as_slice()) == Ordering::Less,
    }
}

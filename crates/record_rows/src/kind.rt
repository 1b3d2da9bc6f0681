// Kinds of records: what their ids and bodies are spelled from.
ghost use Rattle.std.specs.Prelude.{◌≡◌, ◌≢◌, ◌++◌, ℕ, Ok, Err, IfOk};
ghost use Rattle.record_rows.specs.declared.coded.Unread.{Unread};
ghost use Rattle.record_kinds.specs.declared.rec.Rec.{Rec};
ghost use Rattle.record_kinds.specs.Kinds.{kind_of};
ghost use Rattle.record_rows.specs.Spelling.{id_of, body_of, row_of};
ghost use Rattle.record_rows.specs.Fits.{IsShort};
ghost use Rattle.record_rows.specs.Reading.{IsRead};
ghost use Rattle.record_rows.specs.Laws.{AreMade};

use crate::coded::{Coded, Ordered, Unread};
use record_kinds::Rec;
use sat_base::{Items, NoMemory, Row};
use std::alloc::Global;

/// Why a row is no record: the first of these that holds.
#[derive(Clone, Copy, Debug, PartialEq, Eq)]
pub enum RowErr {
    /// No record has this kind.
    Kind,
    /// No record of the kind has this id.
    Id,
    /// No record of the kind has this body.
    Body,
    /// There is no memory.
    NoMemory,
}

/// A kind of records.
pub(crate) trait Kind: Drop {
    /// What the id is spelled from.
    type Id: Ordered;
    /// What the body is spelled from.
    type Body: Coded;

    ghost KIND: { ℕ };

    const KIND: u8;

    /// The record, among those of every kind.
    ghost rec: { Self → Rec };

    /// The record of an id and a body.
    ghost made: { Self.Id → Self.Body → Rec };

    /// Writes the id behind other bytes.
    fn put_id(&self, out: &mut Vec<u8>) -> Result<(), NoMemory>
        ensures { IfOk result (λ _. out.new.items ≡ out.old.items ++ id_of (rec self.now)) };

    /// Writes the body behind other bytes.
    fn put_body(&self, out: &mut Vec<u8>) -> Result<(), NoMemory>
        requires { IsShort (rec self.now) }
        ensures { IfOk result (λ _. out.new.items ≡ out.old.items ++ body_of (rec self.now)) };

    /// The record of an id and a body.
    fn of(id: Self::Id, body: Self::Body) -> Rec
        requires id { Self.Id.fits id }
        requires body { Self.Body.fits body }
        ensures { result ≡ made id body };

    /// The record has this kind.
    ghost kind: { (x : Self) → kind_of (rec x) ≡ KIND };

    /// The records of the kind are those of an id and a body.
    ghost parts: { AreMade KIND made Self.Id.spelling Self.Id.fits Self.Id.rank
        Self.Body.spelling Self.Body.fits };
}

/// Writes a record.
pub(crate) fn write_row<K: Kind>(alloc: Global, rec: &K) -> Result<Row, NoMemory>
    requires { IsShort (K.rec rec.now) }
    ensures { IfOk result (λ row. row ≡ row_of (K.rec rec.now)) }
{
    let mut id = Vec::new(alloc);
    rec.put_id(&mut id)?;
    let mut body = Vec::new(alloc);
    rec.put_body(&mut body)?;
    Ok(Row {
        kind: K::KIND,
        id: Items::of(id),
        body: Items::of(body),
    })
}

/// Reads a whole run of bytes.
pub(crate) fn read_whole<T: Coded>(alloc: Global, bytes: &[u8]) -> Result<T, Unread>
    ensures fits { IfOk result T.fits }
    ensures found { IfOk result (λ x. bytes.now ≡ T.spelling x) }
    ensures only { (x : T) → T.fits x → bytes.now ≡ T.spelling x → result ≢ Err Unread.NoMemory
        → result ≡ Ok x }
{
    let (x, size) = T::take(alloc, bytes)?;
    if size == bytes.len() {
        Ok(x)
    } else {
        Err(Unread::Form)
    }
}

/// Reads a record of a kind.
pub(crate) fn read_row<K: Kind>(alloc: Global, row: &Row) -> Result<Rec, RowErr>
    requires { row.now.kind ≡ K.KIND }
    ensures { IsRead row.now result }
{
    let id = match read_whole::<K::Id>(alloc, row.id.as_slice()) {
        Ok(id) => id,
        Err(Unread::Form) => return Err(RowErr::Id),
        Err(Unread::NoMemory) => return Err(RowErr::NoMemory),
    };
    let body = match read_whole::<K::Body>(alloc, row.body.as_slice()) {
        Ok(body) => body,
        Err(Unread::Form) => return Err(RowErr::Body),
        Err(Unread::NoMemory) => return Err(RowErr::NoMemory),
    };
    Ok(K::of(id, body))
}

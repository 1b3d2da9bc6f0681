// What opening comes to, in words.
use sat_base::NoMemory;
use sat_book::OpenErr;
use std::alloc::Global;

/// Why no book is opened.
pub fn told_open(alloc: Global, err: &OpenErr) -> Result<String, NoMemory> {
    Ok(match err {
        OpenErr::Fault => String::from_str(alloc, "fault")?,
        OpenErr::NoMemory => String::from_str(alloc, "no-memory")?,
        OpenErr::BadRow { kind, id } => {
            let id = hex::encode(alloc, id.as_slice())?;
            format!(in alloc; "row kind {kind} id {id}")?
        }
        OpenErr::BadTables { rule, kind, id } => {
            let id = hex::encode(alloc, id.as_slice())?;
            format!(in alloc; "rule {rule} kind {kind} id {id}")?
        }
    })
}

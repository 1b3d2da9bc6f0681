// A store that is being made: its rows, as lines put them and take them away.
use crate::fields::{Fields, LineErr};
use crate::records::{number_of, row_of_record};
use crate::row_text::{removal, row};
use sat_base::{Change, Committed, Keeper, KeeperMem, Loaded, NoMemory, Row};
use std::alloc::Global;
use std::mem;

/// A keeper of the rows that these changes make, whose calls of these numbers fail, from 1.
pub fn keeper_of(
    alloc: Global,
    changes: &[Change],
    failing: Vec<u64>,
) -> Result<KeeperMem, NoMemory> {
    let mut all = KeeperMem::of(Vec::new(alloc), Vec::new(alloc));
    if all.commit(alloc, changes) != Committed::Done {
        return Err(NoMemory);
    }
    match all.load(alloc) {
        Loaded::Rows(rows) => Ok(KeeperMem::of(rows.into_vec(), failing)),
        Loaded::Fault | Loaded::NoMemory => Err(NoMemory),
    }
}

/// The change of a store's rows that a line says: `row KIND ID BODY` or a record by its fields puts a row, and
/// `without KIND ID` takes one away.
pub fn change_of_line(alloc: Global, line: &str) -> Result<Change, LineErr> {
    let mut fields = Fields::of_line(line, 0);
    match fields.word()? {
        "row" => Ok(Change::Put(row(alloc, &mut fields)?)),
        "without" => removal(alloc, &mut fields),
        _ => Ok(Change::Put(row_of_record(alloc, line, 0)?)),
    }
}

// Whether a change puts a row of this kind.
fn puts(change: &Change, kind: u8) -> bool {
    match change {
        Change::Put(row) => row.kind == kind,
        Change::Remove { .. } => false,
    }
}

/// A store that is being made.
#[derive(Drop)]
pub struct Store {
    alloc: Global,
    changes: Vec<Change>,
    failing: Vec<u64>,
}

impl Store {
    /// No rows.
    pub fn new(alloc: Global) -> Self {
        Store {
            alloc,
            changes: Vec::new(alloc),
            failing: Vec::new(alloc),
        }
    }

    /// What makes its rows.
    pub fn changes(&self) -> &[Change] {
        &self.changes
    }

    /// What makes its rows, which it hasn't any more.
    pub fn take_changes(&mut self) -> Vec<Change> {
        mem::replace(&mut self.changes, Vec::new(self.alloc))
    }

    /// Its rows are these.
    pub fn keep(&mut self, rows: &[Row]) -> Result<(), NoMemory> {
        let mut changes = Vec::new(self.alloc);
        for row in rows {
            changes.push(Change::Put(row.copy(self.alloc)?))?;
        }
        self.changes = changes;
        Ok(())
    }

    /// A keeper of its rows, whose calls fail as it was noted.
    pub fn keeper(&mut self) -> Result<KeeperMem, NoMemory> {
        let failing = mem::replace(&mut self.failing, Vec::new(self.alloc));
        keeper_of(self.alloc, &self.changes, failing)
    }

    /// Notes what a line says, which stands among these: a row or a record, or that a row is gone; `like OTHER`, the
    /// rows that stand below the line `store OTHER`, up to a line that says none; `clear KIND`, that those of a kind are
    /// gone; `at PLACE KIND ..`, a record in place of the one of its kind that was put there, counted from 0; `rising
    /// COUNT KIND ..`, a record so often, its first number one greater each time; and `fail NUMBERS`, the calls of the
    /// keeper that are to fail, from 1.
    pub fn note(&mut self, lines: &[&str], line: &str) -> Result<(), LineErr> {
        let mut fields = Fields::of_line(line, 0);
        match fields.word()? {
            "like" => self.like(lines, fields.rest()),
            "clear" => self.clear(&mut fields),
            "at" => self.put_at(fields.number()?, fields.rest()),
            "rising" => self.rising(fields.number()?, fields.rest()),
            "fail" => {
                let failing = fields.numbers(self.alloc)?;
                fields.end()?;
                Ok(self.failing.extend_from_slice(&failing)?)
            }
            _ => Ok(self.changes.push(change_of_line(self.alloc, line)?)?),
        }
    }

    fn like(&mut self, lines: &[&str], name: &str) -> Result<(), LineErr> {
        let Some(place) = lines
            .iter()
            .position(|line| line.strip_prefix("store ") == Some(name))
        else {
            return Err(LineErr::Bad);
        };
        for line in lines.iter().skip(place).skip(1) {
            match change_of_line(self.alloc, line) {
                Ok(change) => self.changes.push(change)?,
                Err(LineErr::Bad) => break,
                Err(LineErr::NoMemory) => return Err(LineErr::NoMemory),
            }
        }
        Ok(())
    }

    fn clear(&mut self, fields: &mut Fields<'_>) -> Result<(), LineErr> {
        let kind = number_of(fields.word()?)?;
        fields.end()?;
        self.changes.retain(|change| !puts(change, kind));
        Ok(())
    }

    fn put_at(&mut self, place: u64, line: &str) -> Result<(), LineErr> {
        let row = row_of_record(self.alloc, line, 0)?;
        let mut left = place;
        for change in self.changes.iter_mut() {
            if puts(change, row.kind) {
                if left == 0 {
                    *change = Change::Put(row);
                    return Ok(());
                }
                left -= 1;
            }
        }
        Err(LineErr::Bad)
    }

    fn rising(&mut self, count: u64, line: &str) -> Result<(), LineErr> {
        for more in 0..count {
            let row = row_of_record(self.alloc, line, more)?;
            self.changes.push(Change::Put(row))?;
        }
        Ok(())
    }
}

// What came of a run, in words.
use crate::folder::Folder;
use sat_base::{Change, NoMemory};
use std::alloc::Global;
use stor_base::Offered;
use trial_lines::{LineErr, text_of};

// The number that eight bytes are, from a place on.
fn number_at(bytes: &[u8], place: usize) -> u64 {
    let mut number = 0u64;
    for byte in bytes.iter().skip(place).take(8) {
        number = number.wrapping_mul(256).wrapping_add(u64::from(*byte));
    }
    number
}

fn answer_word(answer: Offered) -> &'static str {
    match answer {
        Offered::Done => "done",
        Offered::Later => "later",
        Offered::Failed => "failed",
        Offered::NoMemory => "memory",
    }
}

// Adds how often a status came in a row.
fn add_run(alloc: Global, text: &mut String, status: u16, count: u64) -> Result<(), NoMemory> {
    if count > 0 {
        text.push_str(format!(in alloc; " {status}*{count}")?.as_str())?;
    }
    Ok(())
}

impl Folder {
    // What was written to a link, from 0.
    fn written(&self, place: usize) -> &[u8] {
        match &self.left {
            Some(world) => match world.lane.done().get(place) {
                Some(link) => link.written(),
                None => &[],
            },
            None => &[],
        }
    }

    /// What came of a link, from 1.
    pub(crate) fn told_served(&self, number: usize) -> Result<String, LineErr> {
        let place = number.saturating_sub(1);
        let Some(served) = self.served.get(place) else {
            return Err(LineErr::Bad);
        };
        let status = served.status;
        let took = if served.taken { "taken" } else { "refused" };
        let took = if served.wanted.is_none() {
            "nothing"
        } else {
            took
        };
        let sent = if served.sent { "whole" } else { "cut" };
        let now = served.now;
        let text = text_of(self.alloc, self.written(place))?;
        Ok(format!(in self.alloc; "{status} {took} {sent} {now} {text}")?)
    }

    /// How often in a row each status came.
    pub(crate) fn told_statuses(&self) -> Result<String, NoMemory> {
        let mut text = String::from_str(self.alloc, "statuses")?;
        let mut last = 0;
        let mut count = 0u64;
        for served in &self.served {
            if served.status != last {
                add_run(self.alloc, &mut text, last, count)?;
                count = 0;
            }
            last = served.status;
            count = count.saturating_add(1);
        }
        add_run(self.alloc, &mut text, last, count)?;
        Ok(text)
    }

    /// The rows of the orders.
    pub(crate) fn told_rows(&self) -> Result<String, LineErr> {
        let count = self.rows.len();
        let mut text = format!(in self.alloc; "rows {count}")?;
        for change in &self.rows {
            let Change::Put(row) = change else {
                return Err(LineErr::Bad);
            };
            let serial = number_at(row.id.as_slice(), 0);
            let body = row.body.as_slice();
            let (amount, served) = (number_at(body, 83), number_at(body, 123));
            let done = if body.last() == Some(&1) {
                "done"
            } else {
                "open"
            };
            text.push_str(format!(in self.alloc; " {serial}:{served}:{done}:{amount}")?.as_str())?;
        }
        Ok(text)
    }

    /// The pieces that are held.
    pub(crate) fn told_pieces(&self) -> Result<String, NoMemory> {
        let count = self.pieces.len();
        let mut text = format!(in self.alloc; "pieces {count}")?;
        for piece in &self.pieces {
            let (segment, index) = (piece.segment.0, piece.index);
            let bytes = hex::encode(self.alloc, piece.bytes.as_slice())?;
            let bytes = bytes.as_str();
            text.push_str(format!(in self.alloc; " {segment}-{index}:{bytes}")?.as_str())?;
        }
        Ok(text)
    }

    /// The offers of the last run.
    pub(crate) fn told_offers(&self) -> Result<String, NoMemory> {
        let mut text = String::from_str(self.alloc, "offers")?;
        let Some(world) = &self.left else {
            return Ok(text);
        };
        for offer in world.settler.offers() {
            let serial = number_at(offer.order.as_slice(), 2);
            let word = answer_word(offer.answer);
            text.push_str(format!(in self.alloc; " {serial}:{word}")?.as_str())?;
        }
        Ok(text)
    }
}

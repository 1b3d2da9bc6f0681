//! The storage node, tried by lines: whole runs of its top call over devices in memory. Each line of the input is answered by
//! one of the output.
//!
//! - `new` begins a folder without orders and pieces. `row KIND ID BODY` puts a row of its orders' store.
//! - `failing KEEPER PIECES SETTLER LANE` has the calls of these numbers fail from then on, counted from 1 in each run.
//! - `later NUMBERS` has the offers of these numbers answered by `Later`, and all others by `Done`.
//! - `link MOMENT CALLS TEXT` adds a link to the next run, which sends the bytes of the text and whose calls of these numbers
//!   fail; `fronts MOMENT TEXT` adds one for each front of the text but the whole, the shortest first.
//! - `run WORDS` runs the words over all of it, and is answered by the status, how many links were served, and what the console
//!   got. What is kept and held stays for the next run.
//! - `served NUMBER` is answered by what came of a link, from 1: its status, whether it was taken, whether all was sent, its
//!   moment, and what was written to it. `statuses` is answered by how often in a row each status came.
//! - `rows`, `pieces` and `offers` are answered by how many there are, and which: the row of an order by its serial, how much was
//!   served, whether it is done and its amount; a piece by `S-J` and its bytes; an offer by its serial and its answer.
//! - `words WORDS` is answered by what the words ask for.
//! - Empty lines and those that begin with `#` are answered by themselves, and all others by `bad-line`.
//!
//! Texts are as in `trial_lines`. The cases of `stor_node_cli`, `stor_serve`, `stor_wire` and `order_uses` are its stored input
//! and output. Nothing is promised beyond their contracts.
#![tactic(auto)]

mod folder;
mod telling;

use folder::Folder;
use sat_base::{Line, NoMemory};
use std::alloc::Global;
use stor_node_cli::read_words;
use trial_lines::{Answers, Fields, LineErr, answer_input, bytes_of, row};

// The words of a text, which stand apart by single spaces.
fn words_of(alloc: Global, text: &str) -> Result<Line, NoMemory> {
    let mut line = Line::new(alloc);
    for word in text.split(' ') {
        line.push(if word == "_" { "" } else { word })?;
    }
    Ok(line)
}

fn told_words(alloc: Global, text: &str) -> Result<String, LineErr> {
    let line = words_of(alloc, text)?;
    match read_words(&line) {
        Some(words) => {
            let node = words.node.0;
            let dir = words.dir;
            let (port, satellite) = (words.port, words.satellite);
            let (cap, addr) = (words.cap, words.addr);
            let key = hex::encode(alloc, words.key.as_slice())?;
            Ok(format!(in alloc; "run {node} {key} {dir} {port} {satellite} {cap} {addr}")?)
        }
        None => Ok(String::from_str(alloc, "none")?),
    }
}

impl Answers for Folder {
    fn answer(&mut self, _lines: &[&str], line: &str) -> Result<String, LineErr> {
        let alloc = self.alloc;
        let mut fields = Fields::of_line(line, 0);
        let word = fields.word()?;
        match word {
            "new" => self.begin(),
            "row" => self.put(row(alloc, &mut fields)?)?,
            "failing" => self.fail(&mut fields)?,
            "later" => self.later = fields.numbers(alloc)?,
            "link" => {
                let moment = fields.number()?;
                let failing = fields.numbers(alloc)?;
                let bytes = bytes_of(alloc, fields.rest())?;
                self.link(moment, failing, bytes)?;
            }
            "fronts" => {
                let moment = fields.number()?;
                let bytes = bytes_of(alloc, fields.rest())?;
                self.fronts(moment, &bytes)?;
            }
            "run" => return self.run(&words_of(alloc, line)?),
            "served" => return self.told_served(fields.number::<u32>()? as usize),
            "statuses" => return Ok(self.told_statuses()?),
            "rows" => return self.told_rows(),
            "pieces" => return Ok(self.told_pieces()?),
            "offers" => return Ok(self.told_offers()?),
            "words" => return told_words(alloc, fields.rest()),
            _ => return Err(LineErr::Bad),
        }
        Ok(String::from_str(alloc, word)?)
    }
}

fn main(rt: HostRuntime) -> anyhow::Result<()> {
    answer_input(&rt, Folder::new(rt.alloc()))
}

//! What is read and written as text or bytes, tried by lines: the wire, records as rows, and the words of the command line.
//! Each line of the input is answered by one of the output.
//!
//! - `read TEXT` reads a request from the bytes of the text, and is answered by what it asks, or why nothing is asked;
//!   `fail CALLS TEXT` does so where the calls of these numbers fail; `fronts TEXT` from each front of the text, and is
//!   answered by how often in a row each answer came, and the last; `slowly TEXT` byte by byte, and is answered also by
//!   the number of reads. The secret is 32 bytes of 7.
//! - `answer REPLY` and `edge ERROR` are answered by the text of their answers.
//! - `send CALLS` sends the answer that memory runs out where the calls of these numbers fail, and is answered by
//!   whether all was sent, and by what was written.
//! - `row KIND ID BODY`, the kind in decimal digits and the others in hexadecimal ones, or `-` for no byte, is answered by
//!   `same` where it is read as a record that is written as this row again, by `differs` where the record is written as
//!   another row, and else by why it is no record: `kind`, `id` or `body`. Where the row is settings of version 1, the
//!   answer is `upgrade`, then the body of the settings, and the id and the body of the tariff.
//! - `words WORDS`, which stand apart by single spaces, is answered by the command that they are, field by field, or by why
//!   they are none. `_` is an empty word, and `(none)` a line without words.
//! - Empty lines and those that begin with `#` are answered by themselves, and all others by `bad-line`.
//!
//! In a text `\r`, `\n` and `\xHH` are bytes, and `<COUNT TEXT>` is a text so often.
//!
//! The cases of `http_edge`, `record_rows` and `command_line` are its stored input and output. Nothing is promised beyond
//! their contracts.
#![tactic(auto)]

mod answering;
mod done;
mod reading;
mod records;
mod words;

use answering::{edge_bytes, reply_bytes, sent};
use order_limits::Keys;
use reading::{read, read_fronts, read_slowly};
use records::answer_row;
use std::alloc::Global;
use trial_lines::{Answers, Fields, LineErr, answer_input, bytes_of, row, text_of};
use words::command;

#[derive(Drop)]
struct Texts {
    alloc: Global,
    keys: Keys,
}

// What an answer that is sent comes to.
fn told_sent(alloc: Global, failing: Vec<u64>) -> Result<String, LineErr> {
    let (word, written) = sent(alloc, failing)?;
    let text = text_of(alloc, &written)?;
    Ok(format!(in alloc; "{word} {text}")?)
}

impl Answers for Texts {
    fn answer(&mut self, _lines: &[&str], line: &str) -> Result<String, LineErr> {
        let (alloc, keys) = (self.alloc, &self.keys);
        let mut fields = Fields::of_line(line, 0);
        match fields.word()? {
            "read" => {
                let bytes = bytes_of(alloc, fields.rest())?;
                Ok(read(alloc, keys, &bytes, Vec::new(alloc))?)
            }
            "fail" => {
                let failing = fields.numbers(alloc)?;
                let bytes = bytes_of(alloc, fields.rest())?;
                Ok(read(alloc, keys, &bytes, failing)?)
            }
            "fronts" => Ok(read_fronts(alloc, keys, &bytes_of(alloc, fields.rest())?)?),
            "slowly" => Ok(read_slowly(alloc, keys, bytes_of(alloc, fields.rest())?)?),
            "answer" => text_of(alloc, &reply_bytes(alloc, keys, &mut fields)?),
            "edge" => text_of(alloc, &edge_bytes(alloc, &mut fields)?),
            "send" => told_sent(alloc, fields.numbers(alloc)?),
            "row" => Ok(answer_row(alloc, &row(alloc, &mut fields)?)?),
            "words" => Ok(command(alloc, fields.rest())?),
            _ => Err(LineErr::Bad),
        }
    }
}

fn main(rt: HostRuntime) -> anyhow::Result<()> {
    let alloc = rt.alloc();
    let keys = Keys::new([7; 32]);
    answer_input(&rt, Texts { alloc, keys })
}

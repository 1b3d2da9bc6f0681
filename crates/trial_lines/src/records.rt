// The records of a store, one a line: the name of the kind, and the fields.
//
// The rows are spelled here anew, by a table of the formats, so that what is read as a record isn't what was written by the
// same code.
use crate::fields::{Fields, LineErr};
use crate::forms::{put, put_number};
use sat_base::{Bytes, Row};
use std::alloc::Global;

// The kinds: the name and the number, how many fields make up the id, and all fields in their order, of which the others make
// up the body. A field is its name, its form (`forms`) and, behind `=`, what it is where a line doesn't say it; `N*` is so often
// the first field. `#` and digits are bytes that stand in each body.
const KINDS: [&str; 16] = [
    "settings 1 0 #02 secret:hash=0707070707070707070707070707070707070707070707070707070707070707 k:1=2 m:1=3 o:1=4 n:1=6 share:2=16 vet:2=100 fresh:1=5 nodes:4=100 customers:4=100 segments:4=100 settled:4=100 tallies:4=1 statements:4=1 first-month:4=24314",
    "marks 2 0 time:8=1772323200 segment:8=1 serial:8=1 plan:8=1 month:4=24314 hour:8=0",
    "node 3 1 id:4 addr:4=256* port:2=28967 free:8=1099511627776 joined:8=1772323200 alpha:4=10000 beta:4=0 passes:4=0 status:status=active",
    "customer 4 1 id:4 added:8=1772323200",
    "segment 5 1 id:8 customer:4 len:8 version:8 pieces:[1+4]",
    "settled 6 2 serial:8 node:4 action:1=2 amount:8=1000 at:8=1772323200",
    "tally 7 2 hour:8 node:4 bytes:8",
    "statement 8 2 month:4 node:4 age:4 percent:1 get:16 audit:16 repair:16 byte-hours:16 get-part:16 audit-part:16 repair-part:16 storage-part:16 gross:16 held:16 paid:16 returned:16 pot:16",
    "audit-plan 9 0 plan:8 segment:8 version:8 stripe:8 serial:8 issued:8 asked:[1+4]",
    "recheck-plan 10 0 plan:8 serial:8 issued:8 node:4 segment:8 index:1 stripe:8 expect:hash",
    "repair-plan 11 0 plan:8 segment:8 version:8 serial:8 issued:8 len:8 sources:[1+4] targets:[1+4]",
    "containment 12 1 node:4 segment:8 index:1 stripe:8 expect:hash tries:1=0",
    "kept 13 1 caller:4 number:8 asked:asked done:done",
    "exit-plan 14 0 leaving:1+4 plan:8 segment:8 version:8 serial:8 issued:8 len:8 sources:[1+4] targets:[1+4]",
    "left 15 1 node:4 at:8",
    "tariff 16 1 from:4=24314 get:8=20000000 audit:8=10000000 repair:8=10000000 storage:8=1500000",
];

// A kind of record.
#[derive(Clone, Copy)]
struct Kind {
    number: u8,
    // how many fields make up the id
    id: usize,
    fields: &'static str,
}

fn kind_of(name: &str) -> Option<Kind> {
    for line in KINDS {
        let mut words = line.splitn(4, ' ');
        if words.next() == Some(name) {
            return Some(Kind {
                number: words.next()?.parse::<u8>().ok()?,
                id: words.next()?.parse::<usize>().ok()?,
                fields: words.next()?,
            });
        }
    }
    None
}

/// The number of a kind by its name.
pub(crate) fn number_of(name: &str) -> Result<u8, LineErr> {
    Ok(kind_of(name).ok_or(LineErr::Bad)?.number)
}

// What a line says of a record, behind the kind's name: values of fields in their order, and then `NAME=VALUE` for others.
#[derive(Clone, Copy)]
struct Given<'a> {
    values: &'a str,
    in_order: Fields<'a>,
    // the first value, where it is a number
    first: u128,
}

impl<'a> Given<'a> {
    fn of(values: Fields<'a>) -> Self {
        let mut ahead = values;
        Given {
            values: values.rest(),
            in_order: values,
            first: ahead.number().unwrap_or(0),
        }
    }

    // Whether a value in order is left.
    fn has_next(&self) -> bool {
        let mut ahead = self.in_order;
        ahead.word().is_ok_and(|word| !word.contains('='))
    }

    // The value that is given by a field's name.
    fn named(&self, name: &str) -> Option<&'a str> {
        for word in self.values.split(' ') {
            if let Some((found, value)) = word.split_once('=') {
                if found == name {
                    return Some(value);
                }
            }
        }
        None
    }

    // Adds the bytes of a field: in order, by its name, or what it is where the line doesn't say it.
    fn put(
        &mut self,
        alloc: Global,
        out: &mut Vec<u8>,
        name: &str,
        form: &str,
        usual: &str,
    ) -> Result<(), LineErr> {
        if self.has_next() {
            return put(alloc, out, form, &mut self.in_order);
        }
        if let Some(value) = self.named(name) {
            return put(alloc, out, form, &mut Fields::of_line(value, 0));
        }
        match usual.strip_suffix('*') {
            Some(factor) => {
                let factor: u128 = Fields::of_line(factor, 0).number()?;
                put_number(out, form, factor.saturating_mul(self.first))
            }
            None => put(alloc, out, form, &mut Fields::of_line(usual, 0)),
        }
    }

    // Each value was taken: what is left are names of fields.
    fn end(&self, fields: &str) -> Result<(), LineErr> {
        let mut left = self.in_order;
        for _ in 0..u64::MAX {
            if left.is_done() {
                break;
            }
            let (name, _) = left.word()?.split_once('=').ok_or(LineErr::Bad)?;
            let mut names = fields.split(' ').filter_map(|field| field.split_once(':'));
            if !names.any(|(field, _)| field == name) {
                return Err(LineErr::Bad);
            }
        }
        Ok(())
    }
}

/// The row of the record that a line says, whose first number is this much greater than it stands there.
pub fn row_of_record(alloc: Global, line: &str, more: u64) -> Result<Row, LineErr> {
    let mut words = Fields::of_line(line, more);
    let kind = kind_of(words.word()?).ok_or(LineErr::Bad)?;
    let mut given = Given::of(words);
    let mut id = Vec::new(alloc);
    let mut body = Vec::new(alloc);
    for (place, field) in kind.fields.split(' ').enumerate() {
        if let Some(digits) = field.strip_prefix('#') {
            body.extend_from_slice(&Fields::of_line(digits, 0).hex(alloc)?)?;
            continue;
        }
        let (name, rest) = field.split_once(':').ok_or(LineErr::Bad)?;
        let (form, usual) = rest.split_once('=').unwrap_or((rest, ""));
        let out = if place < kind.id { &mut id } else { &mut body };
        given.put(alloc, out, name, form, usual)?;
    }
    given.end(kind.fields)?;
    Ok(Row {
        kind: kind.number,
        id: Bytes::of(id),
        body: Bytes::of(body),
    })
}

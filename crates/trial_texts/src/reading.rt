// Requests that are read, and what they ask in words.
ghost use Rattle.std.specs.Prelude.{None};

use http_edge::{EdgeErr, ReadErr, Wish, read_request};
use order_limits::Keys;
use sat_base::{MemConsole, Month, NoMemory, Outside, Rates, Source, Taken};
use std::alloc::Global;

// The indexes of a commit, or the bytes of an order.
fn listed(alloc: Global, numbers: &[u8]) -> Result<String, NoMemory> {
    let mut text = String::new(alloc);
    for (i, number) in numbers.iter().enumerate() {
        if i > 0 {
            text.push(',')?;
        }
        text.push_str(format!(in alloc; "{number}")?.as_str())?;
    }
    if numbers.is_empty() {
        text.push('-')?;
    }
    Ok(text)
}

fn rates_text(alloc: Global, month: Month, rates: &Rates) -> Result<String, NoMemory> {
    let month = month.0;
    let get = rates.get;
    let audit = rates.audit;
    let repair = rates.repair;
    let storage = rates.storage;
    Ok(format!(in alloc; "rates {month} {get} {audit} {repair} {storage}")?)
}

// What is asked, with its fields in their order.
fn asks(alloc: Global, wish: &Wish) -> Result<String, NoMemory> {
    Ok(match wish {
        Wish::AddNode {
            request,
            addr,
            port,
            free,
        } => format!(in alloc; "add-node {request} {addr} {port} {free}")?,
        Wish::AddCustomer { request } => format!(in alloc; "add-customer {request}")?,
        Wish::Begin {
            customer,
            request,
            len,
        } => {
            let customer = customer.0;
            format!(in alloc; "begin {customer} {request} {len}")?
        }
        Wish::Commit {
            customer,
            request,
            segment,
            indexes,
        } => {
            let customer = customer.0;
            let segment = segment.0;
            let indexes = listed(alloc, indexes.as_slice())?;
            format!(in alloc; "commit {customer} {request} {segment} {indexes}")?
        }
        Wish::Get {
            customer,
            request,
            segment,
        } => {
            let customer = customer.0;
            let segment = segment.0;
            format!(in alloc; "get {customer} {request} {segment}")?
        }
        Wish::Delete {
            customer,
            request,
            segment,
        } => {
            let customer = customer.0;
            let segment = segment.0;
            format!(in alloc; "delete {customer} {request} {segment}")?
        }
        Wish::Settle { node, bytes } => {
            let node = node.0;
            let bytes = hex::encode(alloc, bytes.as_slice())?;
            format!(in alloc; "settle {node} {bytes}")?
        }
        Wish::SetFree { node, free } => {
            let node = node.0;
            format!(in alloc; "set-free {node} {free}")?
        }
        Wish::Exit { node } => {
            let node = node.0;
            format!(in alloc; "exit {node}")?
        }
        Wish::Statement { node, month } => {
            let node = node.0;
            let month = month.0;
            format!(in alloc; "statement {node} {month}")?
        }
        Wish::CloseMonth { month } => {
            let month = month.0;
            format!(in alloc; "close {month}")?
        }
        Wish::SetRates { month, rates } => rates_text(alloc, *month, rates)?,
        Wish::Stop => String::from_str(alloc, "stop")?,
    })
}

// Why nothing is asked.
fn edge(alloc: Global, error: EdgeErr) -> Result<String, NoMemory> {
    let name = match error {
        EdgeErr::Head => "head",
        EdgeErr::Short => "short",
        EdgeErr::HeadSize => "head-size",
        EdgeErr::NoRoute => "no-route",
        EdgeErr::BadMethod => "method",
        EdgeErr::Key => "key",
        EdgeErr::Transfer => "transfer",
        EdgeErr::NoLength => "no-length",
        EdgeErr::BadLength => "bad-length",
        EdgeErr::BodySize => "body-size",
        EdgeErr::ShortBody => "short-body",
        EdgeErr::Json => "json",
        EdgeErr::Field { place } => return Ok(format!(in alloc; "edge field {place}")?),
        EdgeErr::NoMemory => "memory",
    };
    Ok(format!(in alloc; "edge {name}")?)
}

fn said(alloc: Global, read: Result<Wish, ReadErr>) -> Result<String, NoMemory> {
    match read {
        Ok(wish) => asks(alloc, &wish),
        Err(ReadErr::Edge(error)) => edge(alloc, error),
        Err(ReadErr::Fault) => Ok(String::from_str(alloc, "fault")?),
    }
}

/// What these bytes ask, where the reads of these numbers fail.
pub fn read(
    alloc: Global,
    keys: &Keys,
    bytes: &[u8],
    failing: Vec<u64>,
) -> Result<String, NoMemory> {
    let input = Vec::from_slice(alloc, bytes)?;
    let mut console = MemConsole::of(alloc, input, failing);
    said(alloc, read_request(alloc, &mut console, keys))
}

// Adds how often one answer came.
fn add_run(alloc: Global, runs: &mut String, answer: &str, count: u64) -> Result<(), NoMemory> {
    if count > 0 {
        runs.push_str(format!(in alloc; "{count} {answer}, ")?.as_str())?;
    }
    Ok(())
}

/// What the fronts of these bytes ask, from none of them to all: how often in a row each answer comes, and the last.
pub fn read_fronts(alloc: Global, keys: &Keys, bytes: &[u8]) -> Result<String, NoMemory> {
    let mut runs = String::new(alloc);
    let mut last = String::new(alloc);
    let mut count = 0u64;
    for end in 0..bytes.len() {
        let answer = read(alloc, keys, &bytes[..end], Vec::new(alloc))?;
        if answer != last {
            add_run(alloc, &mut runs, last.as_str(), count)?;
            last = answer;
            count = 0;
        }
        count = count.saturating_add(1);
    }
    add_run(alloc, &mut runs, last.as_str(), count)?;
    let whole = read(alloc, keys, bytes, Vec::new(alloc))?;
    runs.push_str(whole.as_str())?;
    Ok(runs)
}

// A source that gives a byte at a time, and counts its reads.
#[derive(Drop)]
struct Trickle {
    input: Vec<u8>,
    taken: usize,
    reads: usize,
}

impl Outside for Trickle {
    ghost about = { λ t. record { left = None; written = None; reads = None; read_faults = 0; write_faults = 0 } };
}

impl Source for Trickle {
    fn read(&mut self, buf: &mut [u8]) -> Taken {
        self.reads = self.reads.saturating_add(1);
        match self.input.get(self.taken) {
            Some(byte) => {
                buf[0] = *byte;
                self.taken += 1;
                Taken::Count(1)
            }
            None => Taken::End,
        }
    }
}

/// What these bytes ask where each read takes one, and how many reads there were.
pub fn read_slowly(alloc: Global, keys: &Keys, bytes: Vec<u8>) -> Result<String, NoMemory> {
    let mut source = Trickle {
        input: bytes,
        taken: 0,
        reads: 0,
    };
    let read = read_request(alloc, &mut source, keys);
    let answer = said(alloc, read)?;
    let reads = source.reads;
    Ok(format!(in alloc; "{answer}, {reads} reads")?)
}

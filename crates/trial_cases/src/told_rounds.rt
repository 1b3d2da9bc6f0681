// What rounds came to, and what nodes hold, as lines.
use crate::running::Ran;
use machine_calls::Reply;
use sat_base::{Ask, Held, NoMemory};
use sat_book::Entry;
use sat_sessions::{Round, RoundEnd};
use std::alloc::Global;
use trial_lines::told_reply;

fn told_end(alloc: Global, end: RoundEnd) -> Result<String, NoMemory> {
    Ok(match end {
        RoundEnd::Through => String::from_str(alloc, "through")?,
        RoundEnd::WordsFault => String::from_str(alloc, "words-fault")?,
        RoundEnd::TermFull { ticket } => format!(in alloc; "term-full {ticket}")?,
        RoundEnd::Stopped => String::from_str(alloc, "stopped")?,
        RoundEnd::NoMemory => String::from_str(alloc, "no-memory")?,
    })
}

// How it ended, and the places that it names.
fn told_places(alloc: Global, round: &Round) -> Result<String, NoMemory> {
    let mut text = told_end(alloc, round.end)?;
    for place in &round.places {
        text.push_str(&format!(in alloc; " {place}")?)?;
    }
    Ok(text)
}

fn told_ask(alloc: Global, ask: &Ask) -> Result<String, NoMemory> {
    let node = ask.node.0;
    let addr = ask.addr;
    let port = ask.port;
    let segment = ask.segment.0;
    let index = ask.index;
    let offset = ask.offset;
    let len = ask.len;
    Ok(format!(in alloc; "\nask {node} {addr} {port} {segment} {index} {offset} {len}")?)
}

fn put_reply(alloc: Global, text: &mut String, reply: &Reply) -> Result<(), NoMemory> {
    let told = told_reply(alloc, reply)?;
    text.push_str("\n")?;
    text.push_str(&told)?;
    Ok(())
}

fn put_replies(alloc: Global, text: &mut String, history: &[Entry]) -> Result<(), NoMemory> {
    for entry in history {
        put_reply(alloc, text, &entry.reply)?;
    }
    Ok(())
}

fn put_asks(alloc: Global, text: &mut String, asks: &[Ask]) -> Result<(), NoMemory> {
    for ask in asks {
        text.push_str(&told_ask(alloc, ask)?)?;
    }
    Ok(())
}

/// How a round ended, its entries' replies, and what was asked, a line each.
pub fn told_round(alloc: Global, ran: &Ran) -> Result<String, NoMemory> {
    let mut text = told_places(alloc, &ran.round)?;
    put_replies(alloc, &mut text, &ran.history)?;
    put_asks(alloc, &mut text, ran.kit.nodes.asks())?;
    Ok(text)
}

/// What nodes hold, a line each.
pub fn told_nodes(alloc: Global, held: &[Held]) -> Result<String, NoMemory> {
    let count = held.len();
    let mut text = format!(in alloc; "nodes {count}")?;
    for piece in held {
        let node = piece.node.0;
        let segment = piece.segment.0;
        let index = piece.index;
        let bytes = hex::encode(alloc, piece.bytes.as_slice())?;
        text.push_str(&format!(in alloc; "\nholds {node} {segment} {index} {bytes}")?)?;
    }
    Ok(text)
}

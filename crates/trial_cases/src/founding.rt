// A store that `init` makes.
use sat_base::{Caps, Keeper, MemClock, MemWords, NoMemory, Rates, Scheme};
use sat_init::{InitErr, Setup, init};
use std::alloc::Global;
use trial_lines::{Fields, LineErr};

/// What a store is made with, and what its secret may be drawn from.
#[derive(Drop)]
pub struct Founding {
    now: u64,
    words: Vec<u64>,
    setup: Setup,
}

// 32 bytes in hexadecimal digits, or `-` for one that is drawn.
fn secret(fields: &mut Fields<'_>) -> Result<Option<[u8; 32]>, LineErr> {
    let word = fields.word()?;
    if word == "-" {
        return Ok(None);
    }
    let mut secret = [0; 32];
    if hex::decode_to_slice(word, &mut secret).is_err() {
        return Err(LineErr::Bad);
    }
    Ok(Some(secret))
}

// K M O N SHARE.
fn scheme(fields: &mut Fields<'_>) -> Result<Scheme, LineErr> {
    let k = fields.number()?;
    let m = fields.number()?;
    let o = fields.number()?;
    let n = fields.number()?;
    let share = fields.number()?;
    Scheme::check(k, m, o, n, share).map_err(|_| LineErr::Bad)
}

// NODES CUSTOMERS SEGMENTS SETTLED TALLIES STATEMENTS.
fn caps(fields: &mut Fields<'_>) -> Result<Caps, LineErr> {
    Ok(Caps {
        nodes: fields.number()?,
        customers: fields.number()?,
        segments: fields.number()?,
        settled: fields.number()?,
        tallies: fields.number()?,
        statements: fields.number()?,
    })
}

// GET AUDIT REPAIR STORAGE.
fn rates(fields: &mut Fields<'_>) -> Result<Rates, LineErr> {
    Ok(Rates {
        get: fields.number()?,
        audit: fields.number()?,
        repair: fields.number()?,
        storage: fields.number()?,
    })
}

fn setup(fields: &mut Fields<'_>) -> Result<Setup, LineErr> {
    Ok(Setup {
        secret: secret(fields)?,
        scheme: scheme(fields)?,
        vet: fields.number()?,
        fresh: fields.number()?,
        caps: caps(fields)?,
        rates: rates(fields)?,
    })
}

/// NOW WORDS SECRET K M O N SHARE VET FRESH, the caps, the rates.
pub fn founding_of(alloc: Global, fields: &mut Fields<'_>) -> Result<Founding, LineErr> {
    let founding = Founding {
        now: fields.number()?,
        words: fields.numbers(alloc)?,
        setup: setup(fields)?,
    };
    fields.end()?;
    Ok(founding)
}

/// Makes a store over a keeper, and says the operator's key or why there is none.
pub fn told_founding<K: Keeper>(
    alloc: Global,
    keeper: &mut K,
    founding: Founding,
) -> Result<String, NoMemory> {
    let Founding { now, words, setup } = founding;
    let mut clock = MemClock::of(vec![in alloc; now]?);
    let mut words = MemWords::of(words, Vec::new(alloc));
    Ok(match init(alloc, &setup, keeper, &mut clock, &mut words) {
        Ok(key) => {
            let key = hex::encode(alloc, key.as_slice())?;
            format!(in alloc; "operator {key}")?
        }
        Err(InitErr::StoreFault) => String::from_str(alloc, "fault")?,
        Err(InitErr::NotEmpty) => String::from_str(alloc, "not-empty")?,
        Err(InitErr::WordsFault) => String::from_str(alloc, "words")?,
        Err(InitErr::NoMemory) => return Err(NoMemory),
    })
}

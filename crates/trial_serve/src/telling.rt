// What a run came to, as lines.
use crate::lane::TrialLane;
use sat_base::{MemClock, MemWords};
use sat_sessions::{Round, RoundEnd, Session, SessionEnd};
use satellite_cli::{Post, Term};
use std::alloc::Global;
use trial_lines::{LineErr, text_of};

/// What a run leaves, beside its term.
#[derive(Drop)]
pub struct RunTold<'a> {
    pub status: u8,
    pub console: &'a [u8],
    pub posts: &'a [Post<TrialLane, MemClock, MemWords>],
    /// The gate held for too long.
    pub late: bool,
    /// The places of entries are told.
    pub places: bool,
}

// Lines, each of which stands once for all that are the same behind it.
#[derive(Drop)]
struct Runs {
    alloc: Global,
    text: String,
    last: String,
    count: u64,
}

impl Runs {
    fn new(alloc: Global) -> Self {
        Runs {
            alloc,
            text: String::new(alloc),
            last: String::new(alloc),
            count: 0,
        }
    }

    fn add(&mut self, line: String) -> Result<(), LineErr> {
        if self.count > 0 && self.last == line {
            self.count = self.count.saturating_add(1);
            return Ok(());
        }
        self.put_last()?;
        self.last = line;
        self.count = 1;
        Ok(())
    }

    fn put_last(&mut self) -> Result<(), LineErr> {
        if self.count == 0 {
            return Ok(());
        }
        self.text.push_str("\n")?;
        if self.count > 1 {
            let count = self.count;
            self.text
                .push_str(&format!(in self.alloc; "{count} times ")?)?;
        }
        Ok(self.text.push_str(&self.last)?)
    }

    fn finish(self) -> Result<String, LineErr> {
        let mut runs = self;
        runs.put_last()?;
        let Runs {
            alloc: _,
            text,
            last: _,
            count: _,
        } = runs;
        Ok(text)
    }
}

fn told_session(alloc: Global, session: &Session, places: bool) -> Result<String, LineErr> {
    let (what, sent) = match session.end {
        SessionEnd::Entered { place, sent } if places => {
            (format!(in alloc; "entered {place}")?, sent)
        }
        SessionEnd::Entered { place: _, sent } => (String::from_str(alloc, "entered")?, sent),
        SessionEnd::Edge { error: _, sent } => (String::from_str(alloc, "edge")?, sent),
        SessionEnd::ReadFault => (String::from_str(alloc, "read-fault")?, true),
        SessionEnd::WordsFault { sent } => (String::from_str(alloc, "words-fault")?, sent),
        SessionEnd::TermFull { ticket, sent } => {
            (format!(in alloc; "term-full {ticket}")?, sent)
        }
    };
    let mut text = what;
    if !sent {
        text.push_str(" cut")?;
    }
    Ok(text)
}

fn told_round(alloc: Global, name: &str, round: &Round, places: bool) -> Result<String, LineErr> {
    let end = match round.end {
        RoundEnd::Through => String::from_str(alloc, "through")?,
        RoundEnd::WordsFault => String::from_str(alloc, "words-fault")?,
        RoundEnd::TermFull { ticket } => format!(in alloc; "term-full {ticket}")?,
        RoundEnd::Stopped => String::from_str(alloc, "stopped")?,
        RoundEnd::NoMemory => String::from_str(alloc, "no-memory")?,
    };
    let mut text = format!(in alloc; "round {name} {end}")?;
    for place in &round.places {
        if places {
            text.push_str(&format!(in alloc; " {place}")?)?;
        } else {
            text.push_str(" entry")?;
        }
    }
    Ok(text)
}

fn add_rounds(
    alloc: Global,
    runs: &mut Runs,
    name: &str,
    rounds: &[Round],
    places: bool,
) -> Result<(), LineErr> {
    for round in rounds {
        runs.add(told_round(alloc, name, round, places)?)?;
    }
    Ok(())
}

fn add_term(alloc: Global, runs: &mut Runs, term: &Term, places: bool) -> Result<(), LineErr> {
    for (number, sessions) in term.lanes.iter().enumerate() {
        for session in sessions {
            let told = told_session(alloc, session, places)?;
            runs.add(format!(in alloc; "session {number} {told}")?)?;
        }
    }
    add_rounds(alloc, runs, "audit", &term.audits, places)?;
    add_rounds(alloc, runs, "repair", &term.repairs, places)?;
    add_rounds(alloc, runs, "tally", &term.tallies, places)
}

/// The lines of a run.
pub fn told_run(alloc: Global, run: &RunTold<'_>, term: &Option<Term>) -> Result<String, LineErr> {
    let status = run.status;
    let console = text_of(alloc, run.console)?;
    let mut runs = Runs::new(alloc);
    if let Some(term) = term {
        add_term(alloc, &mut runs, term, run.places)?;
    }
    for (number, post) in run.posts.iter().enumerate() {
        for link in post.lane.done() {
            let told = text_of(alloc, link.written())?;
            runs.add(format!(in alloc; "link {number} {told}")?)?;
        }
    }
    if run.late {
        runs.add(String::from_str(alloc, "gate late")?)?;
    }
    let lines = runs.finish()?;
    Ok(format!(in alloc; "status {status} {console}{lines}")?)
}

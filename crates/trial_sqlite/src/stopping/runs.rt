// Runs over files that stop, and what is found when they are opened again.
use super::asking::{Asked, Course, ask_file};
use super::files::{Filled, Stopping, Work, Worked, come_back, over_files, rows_of};
use sat_base::{Items, Row};
use sqlite::{Alter, Connection};
use std::alloc::Global;
use trial_lines::LineErr;

/// A store with calls that are asked.
#[derive(Clone, Copy)]
pub struct Case<'a> {
    pub filled: &'a Filled,
    pub calls: &'a [&'a str],
    pub course: &'a Course,
}

/// What a run came to.
#[derive(Clone, Copy, Debug, PartialEq, Eq)]
pub enum Outcome {
    /// All calls were answered.
    Ended,
    /// No book was opened.
    Unopened,
    /// So many calls were answered, and the file has the rows of so many.
    Stopped { answered: usize, kept: usize },
    /// It isn't as it has to be.
    Wrong(&'static str),
}

// The calls are asked.
#[derive(Drop)]
struct First<'a> {
    calls: &'a [&'a str],
}

impl Work for First<'_> {
    type Output = Asked;

    fn over<S: Alter + Drop>(
        self,
        alloc: Global,
        conn: Connection<S>,
    ) -> Result<Option<(Connection<S>, Asked)>, LineErr> {
        ask_file(alloc, conn, self.calls)
    }
}

// The rows are read, and once these calls were asked again.
#[derive(Drop)]
struct Second<'a> {
    calls: &'a [&'a str],
}

impl Work for Second<'_> {
    type Output = (Items<Row>, Items<Row>);

    fn over<S: Alter + Drop>(
        self,
        alloc: Global,
        conn: Connection<S>,
    ) -> Result<Option<(Connection<S>, (Items<Row>, Items<Row>))>, LineErr> {
        let Some((conn, found)) = rows_of(alloc, conn) else {
            return Ok(None);
        };
        let Some((conn, _)) = ask_file(alloc, conn, self.calls)? else {
            return Ok(None);
        };
        match rows_of(alloc, conn) {
            Some((conn, rows)) => Ok(Some((conn, (found, rows)))),
            None => Ok(None),
        }
    }
}

// Whether what was found goes with what was answered.
fn verdict(case: &Case<'_>, asked: Asked, found: &Items<Row>, at_last: &Items<Row>) -> Outcome {
    if case.course.place_of(at_last) != Some(case.calls.len()) {
        return Outcome::Wrong("asked again");
    }
    match (asked, case.course.place_of(found)) {
        (Asked::Unopened, Some(0)) => Outcome::Unopened,
        (Asked::Unopened, None) if *found == case.course.first => Outcome::Unopened,
        (Asked::Answered(answered), Some(kept)) => {
            if kept != answered && kept != answered.saturating_add(1) {
                Outcome::Wrong("other rows")
            } else if answered == case.calls.len() {
                Outcome::Ended
            } else {
                Outcome::Stopped { answered, kept }
            }
        }
        _ => Outcome::Wrong("other rows"),
    }
}

/// A run over files of which one answers so many calls.
pub fn run(
    alloc: Global,
    case: &Case<'_>,
    stopping: Stopping,
    disk_calls: u64,
) -> Result<Outcome, LineErr> {
    let Some(files) = case.filled.with_calls(alloc, stopping, disk_calls) else {
        return Ok(Outcome::Wrong("not set up"));
    };
    let calls = case.calls;
    let (files, asked) = match over_files(alloc, files, First { calls })? {
        Worked::Done(files, asked) => (files, asked),
        Worked::Unopened(files) => (files, Asked::Unopened),
        Worked::Lost => return Ok(Outcome::Wrong("a keeper was refused")),
    };
    let from = match asked {
        Asked::Answered(answered) => answered,
        Asked::Unopened => 0,
    };
    let calls = calls.get(from..).unwrap_or(&[]);
    match over_files(alloc, come_back(files), Second { calls })? {
        Worked::Done(_, rows) => {
            let (found, at_last) = rows;
            Ok(verdict(case, asked, &found, &at_last))
        }
        Worked::Unopened(_) => Ok(Outcome::Wrong("not opened again")),
        Worked::Lost => Ok(Outcome::Wrong("not opened again")),
    }
}

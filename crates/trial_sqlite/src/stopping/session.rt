// What is tried: the rows of a store and its calls, or the commits of a keeper, which are noted; and then runs over files of
// them.
use super::asking::Course;
use super::files::{Filled, Stopping};
use super::keepers::{Ended, Found, found_in, is_refused_and_kept, run_new};
use super::runs::{Case, Outcome, run};
use sat_base::{Change, Loaded, NoMemory};
use std::alloc::Global;
use trial_lines::{LineErr, Store, bytes_of, told_row};

// A run comes to its end before so many calls of a disk.
const CALLS: u64 = 1000;

/// A store that is being made, the calls that are to be asked, the commits, and the text that makes a database.
#[derive(Drop)]
pub struct Session<'a> {
    alloc: Global,
    store: Store,
    calls: Vec<&'a str>,
    commits: Vec<Vec<Change>>,
    text: &'a str,
}

fn told(alloc: Global, calls: u64, outcome: Outcome) -> Result<String, NoMemory> {
    Ok(match outcome {
        Outcome::Ended => format!(in alloc; "{calls} ended")?,
        Outcome::Unopened => format!(in alloc; "{calls} unopened")?,
        Outcome::Stopped { answered, kept } => {
            format!(in alloc; "{calls} answered {answered} kept {kept}")?
        }
        Outcome::Wrong(why) => format!(in alloc; "{calls} wrong {why}")?,
    })
}

fn told_new(alloc: Global, calls: u64, ended: Ended) -> Result<String, NoMemory> {
    Ok(match ended {
        Ended::All => format!(in alloc; "{calls} ended")?,
        Ended::Unmade => format!(in alloc; "{calls} unmade")?,
        Ended::Stopped { done, kept } => format!(in alloc; "{calls} done {done} kept {kept}")?,
        Ended::Wrong(why) => format!(in alloc; "{calls} wrong {why}")?,
    })
}

// What was answered to commits, the sum of the numbers in a table of another making, and the rows, a line each.
fn told_found(alloc: Global, found: &Found) -> Result<String, NoMemory> {
    let done = found.answers.done;
    let last = found.answers.last;
    let faults = found.answers.faults;
    let sum = found.sum;
    let mut text = format!(in alloc;
        "done {done} last {last:?} faults {faults} sum {sum:?} load "
    )?;
    match &found.loaded {
        Loaded::Rows(rows) => {
            let count = rows.len();
            text.push_str(&format!(in alloc; "{count}")?)?;
            for row in rows.as_slice() {
                text.push_str("\n")?;
                text.push_str(&told_row(alloc, row)?)?;
            }
        }
        Loaded::Fault => text.push_str("fault")?,
        Loaded::NoMemory => return Err(NoMemory),
    }
    Ok(text)
}

impl<'a> Session<'a> {
    /// No rows, no calls and no commits.
    pub fn new(alloc: Global) -> Self {
        Session {
            alloc,
            store: Store::new(alloc),
            calls: Vec::new(alloc),
            commits: Vec::new(alloc),
            text: "",
        }
    }

    /// The answer to a line, among all lines.
    pub fn answer(&mut self, lines: &[&str], line: &'a str) -> Result<String, NoMemory> {
        if line.is_empty() || line.starts_with('#') {
            return Ok(String::from_str(self.alloc, line)?);
        }
        match self.taken(lines, line) {
            Ok(answer) => Ok(answer),
            Err(LineErr::Bad) => Ok(String::from_str(self.alloc, "bad-line")?),
            Err(LineErr::NoMemory) => Err(NoMemory),
        }
    }

    fn taken(&mut self, lines: &[&str], line: &'a str) -> Result<String, LineErr> {
        match line {
            "stop log" => self.stop(line, Stopping::Log),
            "stop file" => self.stop(line, Stopping::File),
            "stop new log" => self.stop_new(line, Stopping::Log),
            "stop new file" => self.stop_new(line, Stopping::File),
            "found" => self.found(),
            _ => match line.split_once(' ') {
                Some(("store", _)) => {
                    *self = Session::new(self.alloc);
                    Ok(String::from_str(self.alloc, line)?)
                }
                Some(("file", text)) => self.refused(text),
                _ => {
                    self.note(lines, line)?;
                    Ok(String::from_str(self.alloc, "noted")?)
                }
            },
        }
    }

    fn note(&mut self, lines: &[&str], line: &'a str) -> Result<(), LineErr> {
        if line == "commit" {
            let changes = self.store.take_changes();
            return Ok(self.commits.push(changes)?);
        }
        match line.split_once(' ') {
            Some(("ask", call)) => Ok(self.calls.push(call)?),
            Some(("made", text)) => {
                self.text = text;
                Ok(())
            }
            _ => self.store.note(lines, line),
        }
    }

    // A run for each number of calls, until one comes to its end.
    fn stop(&self, line: &str, stopping: Stopping) -> Result<String, LineErr> {
        let course = Course::of(self.alloc, self.store.changes(), &self.calls)?;
        let Some(filled) = Filled::of(self.alloc, self.store.changes()) else {
            return Ok(String::from_str(self.alloc, "not set up")?);
        };
        let case = Case {
            filled: &filled,
            calls: &self.calls,
            course: &course,
        };
        let mut text = String::from_str(self.alloc, line)?;
        for calls in 0..CALLS {
            let outcome = run(self.alloc, &case, stopping, calls)?;
            text.push_str("\n")?;
            text.push_str(&told(self.alloc, calls, outcome)?)?;
            if outcome == Outcome::Ended {
                break;
            }
        }
        Ok(text)
    }

    // The same of the commits of a keeper over a new file.
    fn stop_new(&self, line: &str, stopping: Stopping) -> Result<String, LineErr> {
        let mut text = String::from_str(self.alloc, line)?;
        for calls in 0..CALLS {
            let ended = run_new(self.alloc, &self.commits, stopping, calls)?;
            text.push_str("\n")?;
            text.push_str(&told_new(self.alloc, calls, ended)?)?;
            if ended == Ended::All {
                break;
            }
        }
        Ok(text)
    }

    // What a keeper finds in the database that the text made.
    fn found(&self) -> Result<String, LineErr> {
        match found_in(self.alloc, self.text, &self.commits)? {
            Some(found) => Ok(told_found(self.alloc, &found)?),
            None => Ok(String::from_str(self.alloc, "refused")?),
        }
    }

    // Whether a file with the bytes of a text is refused.
    fn refused(&self, text: &str) -> Result<String, LineErr> {
        let bytes = bytes_of(self.alloc, text)?;
        let told = if is_refused_and_kept(self.alloc, &bytes)? {
            "refused, and as it was"
        } else {
            "another"
        };
        Ok(String::from_str(self.alloc, told)?)
    }
}

// Programs that answer lines.
use crate::fields::LineErr;
use anyhow::Result;
use sat_base::NoMemory;
use std::alloc::Global;
use std::io;
use std::io::{BufWriter, Write};

/// What answers lines, one after another.
pub trait Answers: Drop {
    /// The answer to a line, which stands among these. One that hasn't the form is `Bad`.
    fn answer(&mut self, lines: &[&str], line: &str) -> Result<String, LineErr>;
}

fn answered<A: Answers>(
    alloc: Global,
    answers: &mut A,
    lines: &[&str],
    line: &str,
) -> Result<String, NoMemory> {
    if line.is_empty() || line.starts_with('#') {
        return Ok(String::from_str(alloc, line)?);
    }
    match answers.answer(lines, line) {
        Ok(answer) => Ok(answer),
        Err(LineErr::Bad) => Ok(String::from_str(alloc, "bad-line")?),
        Err(LineErr::NoMemory) => Err(NoMemory),
    }
}

/// Answers each line of standard input by one of standard output: an empty line, and one that begins with `#`, by
/// itself, and one that hasn't the form by `bad-line`.
pub fn answer_input<A: Answers>(rt: &HostRuntime, answers: A) -> Result<()> {
    let alloc = rt.alloc();
    let mut answers = answers;
    let input = io::read_to_string(alloc, rt.reader())?;
    let lines: Vec<&str> = input.lines().collect(alloc)?;
    let mut output = BufWriter::new(alloc, io::writer(rt))?;
    for line in &lines {
        let answer = answered(alloc, &mut answers, &lines, line)?;
        writeln!(output, "{answer}")?;
    }
    output.flush()?;
    Ok(())
}

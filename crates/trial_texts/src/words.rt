// The words of the command line, and the command that they are.
use command_line::read_line;
use sat_base::{Line, NoMemory};
use std::alloc::Global;

fn words_of(alloc: Global, text: &str) -> Result<Line, NoMemory> {
    let mut line = Line::new(alloc);
    if text == "(none)" {
        return Ok(line);
    }
    for word in text.split(' ') {
        line.push(if word == "_" { "" } else { word })?;
    }
    Ok(line)
}

/// The command that the words of a text are, or why they are none.
pub fn command(alloc: Global, text: &str) -> Result<String, NoMemory> {
    let command = read_line(alloc, &words_of(alloc, text)?);
    Ok(format!(in alloc; "{command:?}")?)
}

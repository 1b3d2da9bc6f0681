// The words of a command line.
use sat_base::{Line, NoMemory};
use std::alloc::Global;
use std::env;
use std::env::Env;
use std::io::ErrorKind;

/// The words after the program's name. Words that are no text are read as none.
pub fn words<R: Env + AllocGlobal>(rt: &R, alloc: Global) -> Result<Line, NoMemory> {
    let mut line = Line::new(alloc);
    let args = match env::args(rt) {
        Ok(args) => args,
        Err(e) if e.kind() == ErrorKind::OutOfMemory => return Err(NoMemory),
        Err(_) => return Ok(line),
    };
    for word in args.skip(1) {
        line.push(word.as_str())?;
    }
    Ok(line)
}

// Says why words are no command, for who typed them.
use address_text::address;
use month_text::month_of_text;
use sat_base::{Line, number};
use std::{io, str};

/// What a value is to be.
#[derive(Clone, Copy)]
pub enum Value {
    /// The name of a file or a folder.
    File,
    /// 64 hexadecimal digits.
    Secret,
    /// A month, as 2026-12.
    Month,
    /// A number from the least to the greatest one.
    Number(u64, u64),
    /// An IPv4 address of one's own machine.
    Address,
}

/// Whether a name has to be there.
#[derive(Clone, Copy, PartialEq, Eq)]
pub enum Need {
    Wanted,
    Free,
}

/// A name behind a command, whether it has to be there, and its value.
pub type Named = (&'static str, Need, Value);

/// A command and its names.
#[derive(Clone, Copy)]
pub struct Form {
    pub command: &'static str,
    pub names: &'static [Named],
    /// What is wrong where each name and each value is right by itself, if anything can be.
    pub together: Option<&'static str>,
}

/// A program and its commands.
#[derive(Clone, Copy)]
pub struct Program {
    pub name: &'static str,
    pub forms: &'static [Form],
}

impl Value {
    // Whether a text is one.
    fn is(&self, text: &str) -> bool {
        let bytes = text.as_bytes();
        match *self {
            Value::File => true,
            Value::Secret => bytes.len() == 64 && bytes.iter().all(|b| b.is_ascii_hexdigit()),
            Value::Month => month_of_text(bytes).is_some(),
            Value::Number(least, most) => match number(bytes, most) {
                Some(n) => n >= least,
                None => false,
            },
            Value::Address => match address(bytes) {
                Some(addr) => addr >> 24 == 127,
                None => false,
            },
        }
    }
}

// Says what a value is to be.
fn say_value(
    rt: &HostRuntime,
    program: &str,
    name: &str,
    value: Value,
    text: &str,
) -> io::Result<()> {
    match value {
        Value::File => eprintln!(rt; "{program}: {name} {text}: no name of a file"),
        Value::Secret => eprintln!(rt; "{program}: {name}: its value isn't 64 hex digits"),
        Value::Month => eprintln!(rt;
            "{program}: {name} {text}: no month, as 2026-12, from 1970-01 to 4147-12"
        ),
        Value::Number(least, most) => eprintln!(rt;
            "{program}: {name} {text}: no number from {least} to {most}"
        ),
        Value::Address => eprintln!(rt;
            "{program}: {name} {text}: no address of 127.0.0.0 to 127.255.255.255"
        ),
    }
}

// Says which names a command has.
fn say_names(rt: &HostRuntime, program: &str, form: &Form, word: &str) -> io::Result<()> {
    let command = form.command;
    eprint!(rt; "{program}: {word}: no name of {command}, which has")?;
    for (name, _, _) in form.names {
        eprint!(rt; " {name}")?;
    }
    eprintln!(rt; "")
}

// Says which commands there are.
fn say_commands(rt: &HostRuntime, known: &Program) -> io::Result<()> {
    let program = known.name;
    eprint!(rt; "{program}: the first word is a command:")?;
    for form in known.forms {
        let command = form.command;
        eprint!(rt; " {command}")?;
    }
    eprintln!(rt; "")
}

// Says what is wrong at a place, where a pair has to stand. True if something is.
fn say_pair(
    rt: &HostRuntime,
    program: &str,
    form: &Form,
    line: &Line,
    place: usize,
) -> io::Result<bool> {
    let Some(name) = word_at(line, place) else {
        return Ok(false);
    };
    let Some((_, _, kind)) = form.names.iter().find(|at| at.0 == name) else {
        say_names(rt, program, form, name)?;
        return Ok(true);
    };
    let value = word_at(line, place.saturating_add(1)).unwrap_or("");
    if value.is_empty() || value.starts_with("-") {
        eprintln!(rt; "{program}: {name} has no value: one isn't empty, and doesn't begin with -")?;
        return Ok(true);
    }
    if first_place(line, name) != Some(place) {
        eprintln!(rt; "{program}: {name} comes twice")?;
        return Ok(true);
    }
    if kind.is(value) {
        return Ok(false);
    }
    say_value(rt, program, name, *kind, value)?;
    Ok(true)
}

fn word_at(line: &Line, place: usize) -> Option<&str> {
    if place < line.len() {
        return Some(line.word(place));
    }
    None
}

// Where a name stands first, among the pairs behind the command.
fn first_place(line: &Line, name: &str) -> Option<usize> {
    (1..line.len())
        .step_by(2)
        .find(|place| word_at(line, *place) == Some(name))
}

// Says why the words behind a command aren't its own.
fn say_form(rt: &HostRuntime, program: &str, form: &Form, line: &Line) -> io::Result<()> {
    for place in (1..line.len()).step_by(2) {
        if say_pair(rt, program, form, line, place)? {
            return Ok(());
        }
    }
    for (name, need, _) in form.names {
        if *need == Need::Wanted && first_place(line, name).is_none() {
            let command = form.command;
            return eprintln!(rt; "{program}: {command} wants {name}");
        }
    }
    match form.together {
        Some(rule) => eprintln!(rt; "{program}: {rule}"),
        None => Ok(()),
    }
}

/// Says on standard error why words are no command of a program.
pub fn say_usage(rt: &HostRuntime, known: &Program, line: &Line) -> io::Result<()> {
    let form = match word_at(line, 0) {
        Some(word) => known.forms.iter().find(|form| form.command == word),
        None => None,
    };
    match form {
        Some(form) => say_form(rt, known.name, form, line),
        None => say_commands(rt, known),
    }
}

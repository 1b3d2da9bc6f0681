// A line's words, and the numbers and lists that they say.
use sat_base::NoMemory;
use std::alloc::{AllocError, AllocFailed, Global};

/// Why a line isn't answered.
#[derive(Clone, Copy, Debug, PartialEq, Eq)]
pub enum LineErr {
    /// It hasn't the form.
    Bad,
    NoMemory,
}

impl From<NoMemory> for LineErr {
    fn from(_: NoMemory) -> Self {
        LineErr::NoMemory
    }
}

impl From<AllocError> for LineErr {
    fn from(_: AllocError) -> Self {
        LineErr::NoMemory
    }
}

impl<T: Drop> From<AllocFailed<T>> for LineErr {
    fn from(_: AllocFailed<T>) -> Self {
        LineErr::NoMemory
    }
}

/// A number of some width.
pub trait Number: Sized {
    /// The number, where it fits.
    fn of(wide: u128) -> Option<Self>;
}

impl Number for u8 {
    fn of(wide: u128) -> Option<Self> {
        u8::try_from(wide).ok()
    }
}

impl Number for u16 {
    fn of(wide: u128) -> Option<Self> {
        u16::try_from(wide).ok()
    }
}

impl Number for u32 {
    fn of(wide: u128) -> Option<Self> {
        u32::try_from(wide).ok()
    }
}

impl Number for u64 {
    fn of(wide: u128) -> Option<Self> {
        u64::try_from(wide).ok()
    }
}

impl Number for u128 {
    fn of(wide: u128) -> Option<Self> {
        Some(wide)
    }
}

/// What is left of a line, or of a word that is a list.
#[derive(Clone, Copy)]
pub struct Fields<'a> {
    rest: Option<&'a str>,
    between: char,
    /// What is added to the next number.
    more: u64,
}

impl<'a> Fields<'a> {
    /// The words of a line, whose first number is this much greater than it stands there.
    pub fn of_line(line: &'a str, more: u64) -> Self {
        Fields {
            rest: Some(line),
            between: ' ',
            more,
        }
    }

    // The items of a word. `-` has none.
    fn of_word(word: &'a str, between: char) -> Self {
        Fields {
            rest: if word == "-" { None } else { Some(word) },
            between,
            more: 0,
        }
    }

    /// Whether nothing is left.
    pub fn is_done(&self) -> bool {
        self.rest.is_none()
    }

    /// What is left, as it stands there.
    pub fn rest(&self) -> &'a str {
        self.rest.unwrap_or("")
    }

    /// Nothing may be left.
    pub fn end(&self) -> Result<(), LineErr> {
        if self.is_done() {
            Ok(())
        } else {
            Err(LineErr::Bad)
        }
    }

    /// The next word.
    pub fn word(&mut self) -> Result<&'a str, LineErr> {
        let Some(rest) = self.rest else {
            return Err(LineErr::Bad);
        };
        match rest.split_once(self.between) {
            Some((word, behind)) => {
                self.rest = Some(behind);
                Ok(word)
            }
            None => {
                self.rest = None;
                Ok(rest)
            }
        }
    }

    /// The next word, as a number.
    pub fn number<N: Number>(&mut self) -> Result<N, LineErr> {
        let Ok(wide) = self.word()?.parse::<u128>() else {
            return Err(LineErr::Bad);
        };
        let number = N::of(wide.saturating_add(u128::from(self.more)));
        self.more = 0;
        number.ok_or(LineErr::Bad)
    }

    /// The items of the next word, which stand apart by commas.
    pub fn list(&mut self) -> Result<Fields<'a>, LineErr> {
        Ok(Fields::of_word(self.word()?, ','))
    }

    /// The parts of the next item, which stand apart by colons.
    pub fn parts(&mut self) -> Result<Fields<'a>, LineErr> {
        Ok(Fields::of_word(self.word()?, ':'))
    }

    /// The next word, as a list of numbers.
    pub fn numbers<N: Number + Drop>(&mut self, alloc: Global) -> Result<Vec<N>, LineErr> {
        let mut list = self.list()?;
        let mut numbers = Vec::new(alloc);
        for _ in 0..u64::MAX {
            if list.is_done() {
                break;
            }
            numbers.push(list.number()?)?;
        }
        Ok(numbers)
    }

    /// The next word, as bytes in hexadecimal digits.
    pub fn hex(&mut self, alloc: Global) -> Result<Vec<u8>, LineErr> {
        match hex::decode(alloc, self.word()?) {
            Ok(bytes) => Ok(bytes),
            Err(hex::FromHexError::OutOfMemory) => Err(LineErr::NoMemory),
            Err(_) => Err(LineErr::Bad),
        }
    }
}

//! What a seat at the table knows, in the midst of a step too. No value of these types is made.
use crate::entry::Entry;
use std::collections::LinkedList;

/// The numbers that a pass answered for when it was joined, and what it had seen then.
pub struct Part<C, A> {
    pub numbers: LinkedList<u32>,
    pub seen: LinkedList<Entry<C, A>>,
}

/// What is known of a pass, and two things more: `turn` says that its turn has come, so that the value is
/// out with it, and `joined` keeps the passes that it was just made of.
pub struct SeatView<C, A, B> {
    pub base: B,
    pub term: u64,
    pub number: u32,
    pub numbers: LinkedList<u32>,
    pub seen: LinkedList<Entry<C, A>>,
    pub spare: u64,
    pub parts: u64,
    pub ticket: Option<u64>,
    pub turn: bool,
    pub joined: LinkedList<Part<C, A>>,
}

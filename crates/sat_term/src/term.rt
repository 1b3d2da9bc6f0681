// What the workers have, and what they leave.
use sat_base::Row;
use sat_book::Entry;
use sat_sessions::{BookPass, LaneEnd, Post, Round, RoundsEnd, RoundsWorked, Session};

/// The three kits of the workers of rounds.
#[derive(Drop)]
pub struct Kits<A, B, C> {
    pub audit: A,
    pub repair: B,
    pub tally: C,
}

/// What all workers have: a post for each lane, and the kits.
#[derive(Drop)]
pub struct Workers<L, T, W, A, B, C> {
    pub posts: Vec<Post<L, T, W>>,
    pub kits: Kits<A, B, C>,
}

/// Room for what is told of a term, so that none is wanting once the workers are at work: the pass numbers, and of each
/// lane its sessions and why it ended.
#[derive(Drop)]
pub struct TermLog {
    pub numbers: Vec<u32>,
    pub lanes: Vec<Vec<Session>>,
    pub ends: Vec<LaneEnd>,
}

/// Why each worker ended, the lanes in order.
#[derive(Drop)]
pub struct Ends {
    pub lanes: Vec<LaneEnd>,
    pub audit: RoundsEnd,
    pub repair: RoundsEnd,
    pub tally: RoundsEnd,
}

/// A term: the rows that its book was opened with, its history, the pass number of each worker, the lanes in order, then
/// audit, repair and tally, and what each of them did.
#[derive(Drop)]
pub struct Term {
    pub opening: Vec<Row>,
    pub history: Vec<Entry>,
    pub passes: Vec<u32>,
    pub lanes: Vec<Vec<Session>>,
    pub audits: Vec<Round>,
    pub repairs: Vec<Round>,
    pub tallies: Vec<Round>,
}

// What the workers of the lanes leave.
#[derive(Drop)]
pub(crate) struct LanesWorked<K, L, T, W> {
    pub pass: BookPass<K>,
    pub posts: Vec<Post<L, T, W>>,
    pub log: TermLog,
}

// What the workers of rounds leave.
#[derive(Drop)]
pub(crate) struct KitsWorked<K, A, B, C> {
    pub audit: RoundsWorked<K, A>,
    pub repair: RoundsWorked<K, B>,
    pub tally: RoundsWorked<K, C>,
}

// What all workers leave.
#[derive(Drop)]
pub(crate) struct Worked<K, L, T, W, A, B, C> {
    pub pass: BookPass<K>,
    pub workers: Workers<L, T, W, A, B, C>,
    pub log: TermLog,
    pub audits: Vec<Round>,
    pub repairs: Vec<Round>,
    pub tallies: Vec<Round>,
    pub audit_end: RoundsEnd,
    pub repair_end: RoundsEnd,
    pub tally_end: RoundsEnd,
}

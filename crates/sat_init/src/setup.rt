use sat_base::{Caps, Rates, Scheme};

/// What a store is to be made with.
#[derive(Clone, Copy)]
pub struct Setup {
    /// From which every key derives. Without one it is drawn.
    pub secret: Option<[u8; 32]>,
    pub scheme: Scheme,
    /// A node is vetted from so many passed audits on.
    pub vet: u16,
    /// So many percent of a segment's places go to nodes that aren't vetted.
    pub fresh: u8,
    /// What is paid, from the first month on.
    pub rates: Rates,
    pub caps: Caps,
}

/// Why no store was made.
#[derive(Clone, Copy, Debug, PartialEq, Eq)]
pub enum InitErr {
    /// The keeper failed.
    StoreFault,
    /// The keeper has rows already.
    NotEmpty,
    /// A draw of a random word failed.
    WordsFault,
    /// Memory runs out.
    NoMemory,
}

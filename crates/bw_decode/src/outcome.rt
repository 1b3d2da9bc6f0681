/// Whether a codeword is near the values of a column.
#[derive(Clone, Copy, Debug, PartialEq, Eq)]
pub enum Column {
    /// One is, and it is the only one.
    Near,
    /// None is.
    Unclear,
}

/// Whether a stripe is near the answers.
#[derive(Clone, Copy, Debug, PartialEq, Eq)]
pub enum Nearness {
    /// One is, and it is the only one.
    Near,
    /// None is.
    Unclear,
}

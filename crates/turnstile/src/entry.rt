//! One line of the history.

/// One call that a desk took. `place` counts the entries before it, and `pass` is the number of the pass
/// that entered it.
#[derive(Drop)]
pub struct Entry<C, A> {
    pub place: u64,
    pub pass: u32,
    pub call: C,
    pub reply: A,
}

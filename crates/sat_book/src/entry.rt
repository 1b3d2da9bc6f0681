use machine_calls::{Call, Reply};

/// One call that a book took: its place, the pass that entered it, and what it was answered.
pub type Entry = turnstile::Entry<Call, Reply>;

use crate::task::Task;
use crate::wish::Wish;
use sat_base::{Items, Moment, Words64};
use std::alloc::Global;

/// What the machine is asked. `now` is the moment that its caller's clock gave; the machine takes no moment that is
/// earlier than one it has taken. A statement and a stop change nothing, and go by no moment.
pub enum Call {
    /// A customer, a node or the operator asks. There are 128 random words where a segment is to begin, else none.
    Asked {
        now: Moment,
        words: Words64,
        wish: Wish,
    },
    /// The satellite asks on its own account.
    Own {
        now: Moment,
        task: Task,
    },
}

// By hand, so that a call is taken apart here, and not anew wherever one is let go.
impl Drop for Call {
    fn drop(self) {
        match self {
            Call::Asked {
                now: _,
                words: _,
                wish: _,
            } => {}
            Call::Own { now: _, task: _ } => {}
        }
    }
}

impl Call {
    ghost use Rattle.std.specs.Prelude.{◌≡◌, []};
    ghost use Rattle.machine_calls.specs.declared.call.Call.{Call};

    /// A request at a moment, which takes no random words.
    pub fn of_wish(alloc: Global, now: Moment, wish: Wish) -> Call
        ensures { result ≡ Call.Asked now [] wish }
    {
        Call::Asked {
            now,
            words: Items::of(Vec::new(alloc)),
            wish,
        }
    }
}

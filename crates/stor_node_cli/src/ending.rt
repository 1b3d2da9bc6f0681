// How a run ends.
ghost use Rattle.sat_console.specs.Run.{code_of};
ghost use Rattle.stor_node_cli.specs.Ending.{SaysBadRow, SaysEnd, SaysWhy};

use order_uses::UsesErr;
use sat_base::{Link, NoMemory};
use sat_console::{Status, fault, say, store_line};
use std::alloc::Global;
use stor_serve::NodeEnd;

// Says which row is none.
fn say_bad_row<C: Link>(alloc: Global, console: &mut C, kind: u8, id: &[u8]) -> Status
    ensures { SaysBadRow kind id.now (code_of result) (C.about console.old) (C.about console.new) }
{
    match store_line(alloc, 0, kind, id) {
        Ok(line) => {
            say(console, &line);
            Status::BadStore
        }
        Err(NoMemory) => fault(console, Status::NoMemory),
    }
}

/// Says why the orders weren't opened.
pub(crate) fn say_why<C: Link>(alloc: Global, console: &mut C, why: &UsesErr) -> Status
    ensures { SaysWhy why.now (code_of result) (C.about console.old) (C.about console.new) }
{
    match why {
        UsesErr::Fault => fault(console, Status::StoreFault),
        UsesErr::BadRow { kind, id } => say_bad_row(alloc, console, *kind, id.as_slice()),
        UsesErr::NoMemory => fault(console, Status::NoMemory),
    }
}

/// Says why there are no more links.
pub(crate) fn say_end<C: Link>(console: &mut C, end: NodeEnd) -> Status
    ensures { SaysEnd end (code_of result) (C.about console.old) (C.about console.new) }
{
    match end {
        NodeEnd::Over => Status::Ok,
        NodeEnd::Failed => fault(console, Status::LaneFault),
        NodeEnd::NoMemory => fault(console, Status::NoMemory),
    }
}

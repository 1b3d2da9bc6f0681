// The command `drill`.
ghost use Rattle.std.specs.Prelude.{◌≤◌};
ghost use Rattle.sat_console.specs.Run.{code_of};
ghost use Rattle.satellite_cli.specs.Drilling.{Drills};

use sat_base::{Link, NoMemory};
use sat_console::{Status, fault, say};
use sat_drill::{Drilled, drill};
use std::alloc::Global;

/// How a drill ended, and what it did.
#[derive(Drop)]
pub(crate) struct Drill {
    pub status: Status,
    pub drilled: Option<Drilled>,
}

/// Makes a drill, and writes its text.
pub(crate) fn make_drill<C: Link>(alloc: Global, console: &mut C, start: u64, calls: u64) -> Drill
    requires { (1 ≤ calls) × (calls ≤ 20000) }
    ensures { Drills (code_of result.status) (C.about console.old) (C.about console.new) result.drilled }
{
    let drilled = match drill(alloc, start, calls) {
        Ok(drilled) => drilled,
        Err(NoMemory) => {
            let status = fault(console, Status::NoMemory);
            return Drill {
                status,
                drilled: None,
            };
        }
    };
    let status = if say(console, drilled.text.as_slice()) {
        Status::Ok
    } else {
        Status::SinkFault
    };
    Drill {
        status,
        drilled: Some(drilled),
    }
}

// A drill from its first call to its text.
ghost use Rattle.std.specs.Prelude.{◌≤◌, length, IfOk};
ghost use Rattle.sat_base.specs.declared.limits.TheConstants as limits;
ghost use Rattle.sat_drill.specs.Drill.{IsDrilled};

use crate::driver::Driver;
use crate::run::Closed;
use crate::telling::text_of;
use sat_base::{Bytes, NoMemory, Row};
use sat_book::Entry;
use std::alloc::Global;

/// What a drill did.
#[derive(Drop)]
pub struct Drilled {
    /// The rows that its book was opened with.
    pub opening: Vec<Row>,
    /// Its calls, and what they were answered.
    pub history: Vec<Entry>,
    /// How many fresh pieces of repairs weren't the pieces of the bytes that were uploaded.
    pub wrong: u64,
    /// What is told of it.
    pub text: Bytes,
}

/// Drives a machine through as many turns as `calls` says, each by the words of a generator that begins with `start`, over
/// nodes in memory of which some alter what they keep. Then it closes the month, and tells what came of it.
///
/// The history is lawful from the tables of the opening rows, and no step was lost to a fault of the store. It fails
/// only where memory runs out. Which calls are made, and the number of wrong pieces, is for tests to see.
pub fn drill(alloc: Global, start: u64, calls: u64) -> Result<Drilled, NoMemory>
    requires { (1 ≤ calls) × (calls ≤ 20000) }
    ensures { IfOk result (λ d. IsDrilled d.opening.items d.history.items d.wrong d.text) }
{
    let mut driver = Driver::new(alloc, start)?;
    driver.begin()?;
    for before in 0..calls {
        driver.turn(before + 1)?;
    }
    driver.end()?;
    tell(driver)
}

// Closes the machine, and tells what came of it.
fn tell(driver: Driver) -> Result<Drilled, NoMemory>
    requires { length driver.run.history ≤ limits.TERM }
    ensures { IfOk result (λ d. IsDrilled d.opening.items d.history.items d.wrong d.text) }
{
    let Driver {
        alloc,
        run,
        nodes,
        words: _,
        requests: _,
        remembered: _,
    } = driver;
    let wrong = nodes.uploads.wrong();
    let Closed {
        opening,
        history,
        sheet,
    } = run.close()?;
    let text = text_of(alloc, &history, wrong, sheet.as_slice())?;
    Ok(Drilled {
        opening,
        history,
        wrong,
        text,
    })
}

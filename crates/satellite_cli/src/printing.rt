// The command `sheet`.
ghost use Rattle.std.specs.Prelude.{◌≡◌};
ghost use Rattle.sat_console.specs.Run.{code_of};
ghost use Rattle.satellite_cli.specs.Printing.{IsPrinted, Prints};

use crate::ending::say_why;
use sat_base::{Keeper, Link, Month, NoMemory};
use sat_book::Book;
use sat_console::{Status, fault, say};
use sat_machine::Core;
use std::alloc::Global;
use tally_payout::sheet;

// Prints the sheet of a month that is closed.
fn print_month<C: Link>(alloc: Global, console: &mut C, core: &Core, month: Month) -> Status
    ensures { Prints core.now.tables month.0 (code_of result) (C.about console.old) (C.about console.new) }
{
    if core.marks().month.0 <= month.0 {
        say(console, b"error: refused month-open\n");
        return Status::Refused;
    }
    let Ok(rows) = core.statements(month) else {
        return fault(console, Status::NoMemory);
    };
    match sheet(alloc, month, rows.as_slice()) {
        Ok(text) => {
            if say(console, text.as_slice()) {
                Status::Ok
            } else {
                Status::SinkFault
            }
        }
        Err(NoMemory) => fault(console, Status::NoMemory),
    }
}

/// A keeper whose book was looked at, and how that ended.
#[derive(Drop)]
pub(crate) struct Looked<K> {
    pub keeper: K,
    pub status: Status,
}

/// Opens a book over the keeper, prints the sheet of a month, and closes the book.
pub(crate) fn print_sheet<C: Link, K: Keeper>(
    alloc: Global,
    console: &mut C,
    keeper: K,
    month: Month,
) -> Looked<K>
    ensures { IsPrinted K.about month.0
        keeper result.keeper (code_of result.status) (C.about console.old) (C.about console.new) }
{
    let book = match Book::open(alloc, keeper, 1) {
        Ok(book) => book,
        Err(refused) => {
            let status = say_why(alloc, console, &refused.why);
            return Looked {
                keeper: refused.keeper,
                status,
            };
        }
    };
    let status = print_month(alloc, console, book.core(), month);
    let (keeper, _, _) = book.close();
    Looked { keeper, status }
}

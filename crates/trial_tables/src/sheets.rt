// Sheets of no statement, of one, and of one with the longest numbers.
ghost use Rattle.std.specs.Prelude.{ℕ, ◌≤◌, IsTrue};
ghost use Rattle.tally_payout.specs.Sheet.{IsPrintable};

use crate::statements::{MONTH, closed};
use sat_base::{Bytes, NoMemory, NodeId};
use std::alloc::Global;
use std::process::Abort;
use tally_payout::{Parts, Statement, sheet};

// Whether each amount is below 2^100.
fn is_printable(s: &Statement) -> bool
    ensures { IsTrue result → IsPrintable s.now }
{
    let Parts {
        get,
        audit,
        repair,
        storage,
        gross,
    } = s.parts;
    let most = 1 << 100;
    (get < most && audit < most && repair < most && storage < most && gross < most)
        && (s.held < most && s.paid < most && s.returned < most && s.pot < most)
}

fn printed(rt: &impl Abort, alloc: Global, statements: &[Statement]) -> Result<Bytes, NoMemory> {
    assert!(rt; statements.len() <= 65536);
    assert!(rt; statements.iter().all(is_printable));
    sheet(alloc, MONTH, statements)
}

const NONE: &str =
    "  node  age          get        audit       repair      storage        gross   %         held         paid     returned          pot
 total    -            0            0            0            0            0   -            0            0            0            0
";

const ONE: &str =
    "  node  age          get        audit       repair      storage        gross   %         held         paid     returned          pot
     1    2      6000000            0            0      1500000      7500000  75      5625000      1875000            0      5625000
 total    -      6000000            0            0      1500000      7500000   -      5625000      1875000            0      5625000
";

const TWO: &str =
    "  node  age          get        audit       repair      storage        gross   %         held         paid     returned          pot
     1    2      6000000            0            0      1500000      7500000  75      5625000      1875000            0      5625000
4294967295 4294967295 1267650600228229401496703205375 1267650600228229401496703205374 1267650600228229401496703205373 1267650600228229401496703205372 1267650600228229401496703205371 100 1267650600228229401496703205370 1267650600228229401496703205369 1267650600228229401496703205368 1267650600228229401496703205367
 total    - 1267650600228229401496709205375 1267650600228229401496703205374 1267650600228229401496703205373 1267650600228229401496704705372 1267650600228229401496710705371   - 1267650600228229401496708830370 1267650600228229401496705080369 1267650600228229401496703205368 1267650600228229401496708830367
";

fn is_printed(rt: &impl Abort, alloc: Global, statements: &[Statement], text: &str) -> bool {
    match printed(rt, alloc, statements) {
        Ok(made) => made.as_slice() == text.as_bytes(),
        Err(_) => false,
    }
}

fn worked(rt: &impl Abort) -> Statement {
    closed(
        rt,
        2,
        (false, false),
        [300_000_000_000, 0, 0, 720_000_000_000_000],
        0,
        [20_000_000, 10_000_000, 10_000_000, 1_500_000],
    )
}

// A statement with the longest numbers, and the sums of another.
fn long(worked: &Statement) -> Statement {
    Statement {
        node: NodeId(4_294_967_295),
        month: MONTH,
        age: 4_294_967_295,
        percent: 100,
        sums: worked.sums,
        parts: Parts {
            get: (1 << 100) - 1,
            audit: (1 << 100) - 2,
            repair: (1 << 100) - 3,
            storage: (1 << 100) - 4,
            gross: (1 << 100) - 5,
        },
        held: (1 << 100) - 6,
        paid: (1 << 100) - 7,
        returned: (1 << 100) - 8,
        pot: (1 << 100) - 9,
    }
}

#[test]
fn sheets(rt: HostRuntime) {
    let alloc = rt.alloc();
    let one = worked(&rt);
    assert!(rt; is_printed(&rt, alloc, &[], NONE));
    assert!(rt; is_printed(&rt, alloc, &[one], ONE));
    assert!(rt; is_printed(&rt, alloc, &[one, long(&one)], TWO));
}

// The rules of the records, tested in their order: the first one that is broken is named, with its first record. They come
// in three parts, between which tables are made: a table takes the list that some rules are tested over, and later rules
// look its rows up.
ghost use Rattle.std.specs.Prelude.{◌≡◌, IfOk};
ghost use Rattle.machine_step.specs.Broken.{first_some};
ghost use Rattle.machine_step.specs.PlanRules.{bad_lefts};
ghost use Rattle.machine_step.specs.Rules.{least};
ghost use Rattle.machine_store.specs.Opening.{tables_made, Tests};
ghost use Rattle.machine_store.specs.Testing.{front_tests, paid_tests, rest_tests, tables_in, tables_beside, IsOpened, AreCounted};

use crate::list_tests::{
    test_customers, test_marks, test_nodes, test_segments, test_settled, test_statements,
    test_tallies,
};
use crate::opening::CoreErr;
use crate::table_tests::{
    test_audit, test_containments, test_exit, test_kept, test_left, test_recheck, test_repair,
    test_tariffs,
};
use crate::untested::{PaidRows, Untested};
use machine_calls::Parts0;
use month_sums::{OpenSums, count_all};
use rows::SlottedRows;
use sat_base::{Marks, Settings};
use segment_index::SegmentIndex;
use std::alloc::Global;

// The first rules, by which the others are tested.
pub(crate) fn test_front(
    alloc: Global,
    settings: &Settings,
    marks: &Marks,
    parts: &Parts0,
) -> Result<(), CoreErr>
    ensures { Tests result (first_some (front_tests (tables_made settings.now marks.now parts.now))) }
{
    test_marks(alloc, settings, marks)?;
    test_nodes(alloc, settings, marks, parts)?;
    test_customers(alloc, settings, marks, parts)?;
    Ok(())
}

// Those of segments and of what pay goes by, with the sums of all orders and tallies, which the rule of statements takes.
pub(crate) fn test_paid(
    alloc: Global,
    by: &Untested,
    rows: &PaidRows,
) -> Result<SlottedRows<OpenSums>, CoreErr>
    requires { IsOpened (tables_in by.now rows.now) }
    ensures rules { Tests result (first_some (paid_tests (tables_in by.now rows.now))) }
    ensures sums { IfOk result (λ sums. AreCounted (tables_in by.now rows.now) sums.rows) }
{
    test_segments(alloc, by, rows)?;
    test_settled(alloc, by, rows)?;
    test_tallies(alloc, by, rows)?;
    let sums = count_all(alloc, rows.settled.as_slice(), rows.tallies.as_slice())?;
    test_statements(alloc, by, rows, &sums)?;
    Ok(sums)
}

// The rest, once the segments are indexed.
pub(crate) fn test_rest(
    alloc: Global,
    rows: &Untested,
    segments: &SegmentIndex,
) -> Result<(), CoreErr>
    requires { rows.now.bad_left ≡ least (bad_lefts rows.now.marks rows.now.nodes.nodes rows.now.left.rows) }
    ensures { Tests result (first_some (rest_tests (tables_beside rows.now segments.now.rows))) }
{
    test_audit(alloc, rows, segments)?;
    test_recheck(alloc, rows)?;
    test_repair(alloc, rows, segments)?;
    test_containments(alloc, rows, segments)?;
    test_kept(alloc, rows)?;
    test_exit(alloc, rows, segments)?;
    test_left(alloc, rows)?;
    test_tariffs(alloc, rows)?;
    Ok(())
}

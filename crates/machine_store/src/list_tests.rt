// The tests of rules over lists of records, before these are made into tables.
ghost use Rattle.std.specs.Prelude.{◌≡◌};
ghost use Rattle.machine_step.specs.Broken.{broken_marks, broken_nodes, broken_customers, broken_segments, broken_settled, broken_tallies, broken_statements, settled_id, tally_id};
ghost use Rattle.machine_step.specs.Tables.{setup_of, ledger_of};
ghost use Rattle.machine_store.specs.Opening.{Tests};
ghost use Rattle.machine_store.specs.Testing.{tables_in, IsOpened, AreCounted};

use crate::opening::{CoreErr, rule_err};
use crate::untested::{PaidRows, Untested};
use machine_calls::{Parts0, rules};
use month_sums::OpenSums;
use rows::SlottedRows;
use sat_base::{Marks, Settings, kinds};
use settlement::SettledRow;
use std::alloc::Global;
use table_rules::{
    StatementRows, are_sound_marks, bad_customer, bad_node, bad_segment, bad_settled,
    bad_statement, bad_tally,
};
use tally_payout::Tally;

pub(crate) fn test_marks(alloc: Global, settings: &Settings, marks: &Marks) -> Result<(), CoreErr>
    ensures { Tests result (broken_marks (setup_of settings.now) marks.now) }
{
    if are_sound_marks(settings, marks) {
        Ok(())
    } else {
        Err(rule_err(alloc, rules::MARKS, kinds::MARKS, &[]))
    }
}

pub(crate) fn test_nodes(
    alloc: Global,
    settings: &Settings,
    marks: &Marks,
    parts: &Parts0,
) -> Result<(), CoreErr>
    ensures { Tests result (broken_nodes (setup_of settings.now) marks.now parts.now.nodes.items) }
{
    match bad_node(settings, marks, parts.nodes.as_slice()) {
        Some(node) => Err(rule_err(alloc, rules::NODES, kinds::NODE, &node.id.0.to_be_bytes())),
        None => Ok(()),
    }
}

pub(crate) fn test_customers(
    alloc: Global,
    settings: &Settings,
    marks: &Marks,
    parts: &Parts0,
) -> Result<(), CoreErr>
    ensures { Tests result (broken_customers (setup_of settings.now) marks.now parts.now.customers.items) }
{
    match bad_customer(settings, marks, parts.customers.as_slice()) {
        Some(customer) => Err(rule_err(
            alloc,
            rules::CUSTOMERS,
            kinds::CUSTOMER,
            &customer.id.0.to_be_bytes(),
        )),
        None => Ok(()),
    }
}

pub(crate) fn test_segments(alloc: Global, by: &Untested, rows: &PaidRows) -> Result<(), CoreErr>
    ensures { Tests result (broken_segments (setup_of by.now.settings) by.now.marks by.now.nodes.nodes
        by.now.customers.rows rows.now.segments.items) }
{
    let segments = rows.segments.as_slice();
    match bad_segment(&by.settings, &by.marks, &by.nodes, &by.customers, segments) {
        Some(segment) => Err(rule_err(
            alloc,
            rules::SEGMENTS,
            kinds::SEGMENT,
            &segment.id.0.to_be_bytes(),
        )),
        None => Ok(()),
    }
}

// The id of a settled order: its serial and its node.
fn settled_id(row: &SettledRow) -> [u8; 12]
    ensures { result ≡ settled_id row.now }
{
    let [a, b, c, d, e, f, g, h] = row.serial.0.to_be_bytes();
    let [i, j, k, l] = row.node.0.to_be_bytes();
    [a, b, c, d, e, f, g, h, i, j, k, l]
}

pub(crate) fn test_settled(alloc: Global, by: &Untested, rows: &PaidRows) -> Result<(), CoreErr>
    ensures { Tests result (broken_settled (setup_of by.now.settings) by.now.marks by.now.nodes.nodes
        rows.now.settled.items) }
{
    match bad_settled(&by.settings, &by.marks, &by.nodes, rows.settled.as_slice()) {
        Some(row) => Err(rule_err(alloc, rules::SETTLED, kinds::SETTLED_ROW, &settled_id(row))),
        None => Ok(()),
    }
}

// The id of a tally: its hour and its node.
fn tally_id(tally: &Tally) -> [u8; 12]
    ensures { result ≡ tally_id tally.now }
{
    let [a, b, c, d, e, f, g, h] = tally.hour.0.to_be_bytes();
    let [i, j, k, l] = tally.node.0.to_be_bytes();
    [a, b, c, d, e, f, g, h, i, j, k, l]
}

pub(crate) fn test_tallies(alloc: Global, by: &Untested, rows: &PaidRows) -> Result<(), CoreErr>
    ensures { Tests result (broken_tallies (setup_of by.now.settings) by.now.marks by.now.nodes.nodes
        rows.now.tallies.items) }
{
    match bad_tally(&by.settings, &by.marks, &by.nodes, rows.tallies.as_slice()) {
        Some(tally) => Err(rule_err(alloc, rules::TALLIES, kinds::TALLY, &tally_id(tally))),
        None => Ok(()),
    }
}

pub(crate) fn test_statements(
    alloc: Global,
    by: &Untested,
    rows: &PaidRows,
    sums: &SlottedRows<OpenSums>,
) -> Result<(), CoreErr>
    requires opened { IsOpened (tables_in by.now rows.now) }
    requires counted { AreCounted (tables_in by.now rows.now) sums.now.rows }
    ensures { Tests result (broken_statements (setup_of by.now.settings) (ledger_of (tables_in by.now rows.now))) }
{
    let rows = StatementRows {
        statements: rows.statements.as_slice(),
        nodes: by.nodes.nodes(),
        counted: sums,
        left: &by.left,
        tariffs: by.tariffs.as_slice(),
    };
    match bad_statement(alloc, &by.settings, &by.marks, &rows)? {
        Some(place) => Err(rule_err(
            alloc,
            rules::STATEMENTS,
            kinds::STATEMENT,
            &place.to_be_bytes(),
        )),
        None => Ok(()),
    }
}

// What a row is read as, and what that is written as.
ghost use Rattle.std.specs.Prelude.{◌≡◌};
ghost use Rattle.record_rows.specs.Fits.{IsShort};
ghost use Rattle.record_rows.specs.Versions.{AreWithin};

use record_rows::{
    Rec, RowErr, Upgraded, read, upgrade, version_of, write, write_audit_plan, write_containment,
    write_customer, write_exit_plan, write_kept, write_left, write_marks, write_node,
    write_recheck_plan, write_repair_plan, write_segment, write_settings, write_settled,
    write_statement, write_tally, write_tariff,
};
use sat_base::{NoMemory, Row};
use std::alloc::Global;

// The row of a record, by the writer of its kind.
fn written(alloc: Global, rec: &Rec) -> Result<Row, NoMemory>
    requires { IsShort rec.now }
{
    match rec {
        Rec::Settings(settings) => write_settings(alloc, settings),
        Rec::Marks(marks) => write_marks(alloc, marks),
        Rec::Node(node) => write_node(alloc, node),
        Rec::Customer(customer) => write_customer(alloc, customer),
        Rec::Segment(segment) => write_segment(alloc, segment),
        Rec::SettledRow(row) => write_settled(alloc, row),
        Rec::Tally(tally) => write_tally(alloc, tally),
        Rec::Statement(statement) => write_statement(alloc, statement),
        Rec::AuditPlan(plan) => write_audit_plan(alloc, plan),
        Rec::RecheckPlan(plan) => write_recheck_plan(alloc, plan),
        Rec::RepairPlan(plan) => write_repair_plan(alloc, plan),
        Rec::Containment(containment) => write_containment(alloc, containment),
        Rec::Kept(kept) => write_kept(alloc, kept),
        Rec::ExitPlan(plan) => write_exit_plan(alloc, plan),
        Rec::Left(left) => write_left(alloc, left),
        Rec::Tariff(tariff) => write_tariff(alloc, tariff),
    }
}

// What a row is read as: whether the record has this row, or why there is none.
fn read_again(alloc: Global, row: &Row) -> Result<&'static str, NoMemory> {
    match read(alloc, row) {
        Ok(rec) => {
            let is_same = write(alloc, &rec)? == *row && written(alloc, &rec)? == *row;
            Ok(if is_same { "same" } else { "differs" })
        }
        Err(RowErr::Kind) => Ok("kind"),
        Err(RowErr::Id) => Ok("id"),
        Err(RowErr::Body) => Ok("body"),
        Err(RowErr::NoMemory) => Err(NoMemory),
    }
}

// The body of the record's row, and the id and the body of that of the implied one, in hexadecimal digits.
fn upgraded_text(alloc: Global, up: &Upgraded) -> Result<String, NoMemory>
    requires { AreWithin up.now }
{
    let own = write(alloc, &up.rec)?;
    let body = hex::encode(alloc, own.body.as_slice())?;
    let Some(also) = &up.also else {
        return Ok(format!(in alloc; "upgrade {body}")?);
    };
    let also = write(alloc, also)?;
    let also_id = hex::encode(alloc, also.id.as_slice())?;
    let also_body = hex::encode(alloc, also.body.as_slice())?;
    Ok(format!(in alloc; "upgrade {body} {also_id} {also_body}")?)
}

pub fn answer_row(alloc: Global, row: &Row) -> Result<String, NoMemory> {
    let version = version_of(alloc, Some(row))?;
    match upgrade(alloc, version, row) {
        Ok(Some(up)) => upgraded_text(alloc, &up),
        Err(RowErr::NoMemory) => Err(NoMemory),
        _ => Ok(String::from_str(alloc, read_again(alloc, row)?)?),
    }
}

// The machine: a step is prepared, and then finished or forgotten.
ghost use Rattle.std.specs.Prelude.{◌≡◌, ◌==◌, ◌≤◌, [], All, filter, length, None, Some, IfOk, OnOk, OnErr, IfSome, IsSomeAnd};
ghost use Rattle.sat_base.specs.declared.limits.TheConstants as limits;
ghost use Rattle.tally_payout.specs.Sheet.{IsPrintable};
ghost use Rattle.machine_step.specs.Bounds.{IsValid};
ghost use Rattle.machine_step.specs.Step.{case_of, step, after, IsWellFormed};
ghost use Rattle.machine_step.specs.Tables.{setup_of};
ghost use Rattle.rows.specs.Rows.{Each};
ghost use Rattle.machine_store.specs.Freed.{HasNoRoom};
ghost use Rattle.machine_store.specs.Opening.{AreParts, Tests, first_broken_of, AreTablesOf};
ghost use Rattle.machine_store.specs.Prepared.{Holds};
ghost use Rattle.machine_store.specs.Store.{tables_of, GoesByTables};

use crate::sweep::sweep;
use machine_calls::{Call, Parts0, Refusal, Reply, rules};
use machine_requests::request_case;
use machine_store::{
    CoreErr, Prepared, Store, place_all, refresh, refused, release_all, rule_err, store_of,
    take_step,
};
use machine_upkeep::upkeep_case;
use sat_base::{Marks, Month, NoMemory, Settings, kinds};
use std::alloc::Global;
use std::marker::Model;
use std::snapshot::Snapshot;
use tally_payout::Statement;

/// The machine. Contracts see its tables, and the call whose step is prepared and neither finished nor forgotten, if
/// there is one. Its tables keep every rule at every moment.
#[derive(Drop)]
pub struct Core {
    alloc: Global,
    store: Store,
    pending: Option<Snapshot<Call>>,
}

impl Model for Core {
    ghost use Rattle.sat_machine.specs.Machine.{Machine};

    ghost Value = { Machine };

    ghost use Rattle.sat_machine.specs.Machine.{IsReady, call_of};
    ghost use Rattle.machine_store.specs.Store.{tables_of};

    ghost view = { λ m. record { tables = tables_of m.store; pending = call_of m.pending; store = m.store } };

    ghost invariant = { λ m. IsReady m.store (call_of m.pending) };
}

// What comes of a call where the machine wasn't stopped.
fn case_of(alloc: Global, store: &Store, call: &Call) -> Result<Prepared, NoMemory>
    requires valid { IsValid (tables_of store.now) }
    requires own { GoesByTables store.now }
    requires fresh { store.now.segments.pending ≡ [] }
    requires formed { IsWellFormed (tables_of store.now) call.now }
    ensures { IfOk result (λ p. Holds p (case_of (tables_of store.now) call.now)) }
{
    match call {
        Call::Asked { now, words, wish } => {
            request_case(alloc, store, *now, words.as_slice(), wish)
        }
        Call::Own { now, task } => upkeep_case(alloc, store, *now, task),
    }
}

// What comes of a call.
fn step(alloc: Global, store: &Store, call: &Call) -> Result<Prepared, NoMemory>
    requires valid { IsValid (tables_of store.now) }
    requires own { GoesByTables store.now }
    requires fresh { store.now.segments.pending ≡ [] }
    requires formed { IsWellFormed (tables_of store.now) call.now }
    ensures { IfOk result (λ p. Holds p (step (tables_of store.now) call.now)) }
{
    if store.stopped {
        return Ok(refused(alloc, Refusal::Stopped));
    }
    let prepared = case_of(alloc, store, call)?;
    sweep(alloc, store, prepared)
}

// The statements of a month.
fn of_month(alloc: Global, rows: &[Statement], month: Month) -> Result<Vec<Statement>, NoMemory>
    ensures { IfOk result (λ due. due.items ≡ filter (λ s. s.month.0 == month.0) rows.now) }
{
    let due = rows.iter().copied().filter(|row| row.month.0 == month.0);
    Ok(due.collect(alloc)?)
}

impl Core {
    /// A machine of these records, each list in the order of its ids: exactly where they keep every table rule, or
    /// else the least rule that they break. Missing settings or marks break the first rule, and have an empty id.
    pub fn new(alloc: Global, parts: Parts0) -> Result<Core, CoreErr>
        requires { AreParts parts }
        ensures rules { Tests result (first_broken_of parts) }
        ensures tables { IfOk result (λ core. AreTablesOf parts core.tables) }
        ensures pending { IfOk result (λ core. core.pending ≡ None) }
    {
        let mut parts = parts;
        let Some(settings) = parts.settings.pop() else {
            return Err(rule_err(alloc, rules::MARKS, kinds::SETTINGS, &[]));
        };
        let Some(marks) = parts.marks.pop() else {
            return Err(rule_err(alloc, rules::MARKS, kinds::MARKS, &[]));
        };
        let store = store_of(alloc, settings, marks, parts)?;
        Ok(Core {
            alloc,
            store,
            pending: None,
        })
    }

    /// Works out the reply and the changes of a call's step, and makes all the room that finishing it takes. The
    /// tables don't show it. A call is well formed if its moment is one, and it has as many words as it takes.
    pub fn prepare(&mut self, call: &Call) -> Result<Prepared, NoMemory>
        requires free { self.old.pending ≡ None }
        requires formed { IsWellFormed self.old.tables call.now }
        ensures tables { self.new.tables ≡ self.old.tables }
        ensures holds { IfOk result (λ p. Holds p (step self.old.tables call.now)) }
        ensures pending { OnOk result (self.new.pending ≡ Some call.now) }
        ensures err { OnErr result (self.new.pending ≡ None) }
    {
        refresh(&mut self.store)?;
        let prepared = step(self.alloc, &self.store, call)?;
        if place_all(&mut self.store, &prepared.changes).is_err() {
            release_all(&mut self.store, &prepared.changes);
            return Err(NoMemory);
        }
        self.pending = Some(Snapshot::of(call));
        Ok(prepared)
    }

    /// Makes the step's tables. It takes no memory.
    pub fn finish(&mut self, prepared: Prepared) -> Reply
        requires { IsSomeAnd self.old.pending (λ call. Holds prepared (step self.old.tables call)) }
        ensures tables { IfSome self.old.pending (λ call. self.new.tables ≡ after self.old.tables call) }
        ensures reply { result ≡ prepared.reply }
        ensures pending { self.new.pending ≡ None }
    {
        let reply = take_step(&mut self.store, prepared);
        self.pending = None;
        reply
    }

    /// Gives the step up, and leaves the tables as they were. The room that was made for it is gone, but for that of nodes
    /// and of settled rows, which has no rank and serves the next ones.
    pub fn forget(&mut self, prepared: Prepared)
        requires { IsSomeAnd self.old.pending (λ call. Holds prepared (step self.old.tables call)) }
        ensures tables { self.new.tables ≡ self.old.tables }
        ensures freed { Each (HasNoRoom self.new.store) prepared.changes.items }
        ensures pending { self.new.pending ≡ None }
    {
        release_all(&mut self.store, &prepared.changes);
        self.pending = None;
    }

    /// What the store is set up with. No step changes it.
    pub fn settings(&self) -> &Settings
        ensures { setup_of result.now ≡ self.now.tables.setup }
    {
        &self.store.settings
    }

    /// The statements of a month, in the order of their nodes: none of a month that isn't closed. They are such that a
    /// sheet can be made of them. It fails only where memory runs out.
    pub fn statements(&self, month: Month) -> Result<Vec<Statement>, NoMemory>
        ensures rows { IfOk result (λ rows. rows.items ≡ filter (λ s. s.month.0 == month.0) self.now.tables.statements) }
        ensures few { IfOk result (λ rows. length rows.items ≤ limits.NODES) }
        ensures small { IfOk result (λ rows. All IsPrintable rows.items) }
    {
        let rows = self.store.pay.statements.copied(self.alloc)?;
        of_month(self.alloc, rows.as_slice(), month)
    }

    /// How far the store has come. The tables keep every rule.
    pub fn marks(&self) -> &Marks
        ensures marks { result.now ≡ self.now.tables.marks }
        ensures valid { IsValid self.now.tables }
    {
        &self.store.marks
    }
}

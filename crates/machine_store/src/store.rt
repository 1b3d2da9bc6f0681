// The tables as they are kept.
ghost use Rattle.std.specs.Prelude.{◌≡◌};
ghost use Rattle.machine_store.specs.Store.{tables_of};

use crate::plans::Plans;
use node_registry::{Left, NodeTable};
use order_limits::Keys;
use pay_tables::PayTables;
use rows::SlottedRows;
use sat_base::{Containment, Customer, CustomerId, Kept, Marks, Moment, SegId, Settings, Tariff};
use segment_core::Segment;
use segment_index::SegmentIndex;
use settlement::Settled;

// The tables as they are kept.
pub struct Store {
    pub settings: Settings,
    // The keys of the settings' secret.
    pub keys: Keys,
    pub marks: Marks,
    pub nodes: NodeTable,
    pub customers: SlottedRows<Customer>,
    pub segments: SegmentIndex,
    pub settled: Settled,
    // Tallies and statements, and what is kept beside them.
    pub pay: PayTables,
    pub plans: Plans,
    pub containments: SlottedRows<Containment>,
    pub kept: SlottedRows<Kept>,
    pub left: SlottedRows<Left>,
    pub tariffs: SlottedRows<Tariff>,
    pub stopped: bool,
}

// By hand, so that all tables are let go here, and not anew wherever a store is.
impl Drop for Store {
    fn drop(self) {
        let Store {
            settings: _,
            keys: _,
            marks: _,
            nodes: _,
            customers: _,
            segments: _,
            settled: _,
            pay: _,
            plans: _,
            containments: _,
            kept: _,
            left: _,
            tariffs: _,
            stopped: _,
        } = self;
    }
}

impl Store {
    ghost use Rattle.std.specs.Option.{option_copied};
    ghost use Rattle.machine_step.specs.Tables.{owned_at};

    // The marks at another moment.
    pub fn marks_at(&self, time: Moment) -> Marks
        ensures { result ≡ record self.now.marks { time = time } }
    {
        Marks { time, ..self.marks }
    }

    // The customer's segment of that id.
    pub fn owned(&self, customer: CustomerId, id: SegId) -> Option<&Segment>
        ensures { option_copied result ≡ owned_at (tables_of self.now).segments customer id }
    {
        match self.segments.get(id) {
            Some(found) if found.customer.0 == customer.0 => Some(found),
            _ => None,
        }
    }
}

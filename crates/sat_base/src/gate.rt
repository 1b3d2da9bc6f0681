// The gate, at which tests hold one worker until another came by.
use std::hint::spin_loop;
use std::sync::atomic::{AtomicU64, Ordering};

/// Where a worker passes the gate.
#[derive(Clone, Copy, PartialEq, Eq)]
pub enum Point {
    /// A session has read its request.
    SessionRead { lane: u16 },
    /// A session has sent its answer.
    SessionSent { lane: u16 },
    /// An audit is about to fetch.
    AuditFetch,
    /// A repair is about to fetch.
    RepairFetch,
}

/// What workers pass at named points. Threads share it. It changes nothing that a contract speaks of.
pub trait Gate: Drop + Sync {
    /// Passes a point, perhaps only after a while.
    fn pass(&self, point: Point);
}

/// A gate that holds nobody.
#[derive(Drop)]
pub struct OpenGate;

impl OpenGate {
    /// The gate.
    pub fn of() -> OpenGate {
        OpenGate
    }
}

impl Gate for OpenGate {
    fn pass(&self, _point: Point) {}
}

// How often a held worker looks.
const LOADS: u64 = 1 << 28;

/// A gate that holds whoever comes to one point until somebody came to another, but not for ever.
#[derive(Drop)]
pub struct HoldGate {
    hold: Point,
    until: Point,
    passed: AtomicU64,
    late: AtomicU64,
}

impl HoldGate {
    /// Holds one point until another was passed.
    pub fn of(hold: Point, until: Point) -> HoldGate {
        HoldGate {
            hold,
            until,
            passed: AtomicU64::new(0),
            late: AtomicU64::new(0),
        }
    }

    /// Whether a held worker was let go before the other point was passed.
    pub fn ran_out(&self) -> bool {
        self.late.load(Ordering::SeqCst) != 0
    }
}

impl Gate for HoldGate {
    fn pass(&self, point: Point) {
        if point == self.until {
            self.passed.store(1, Ordering::SeqCst);
        }
        if point == self.hold {
            for _ in 0..LOADS {
                if self.passed.load(Ordering::SeqCst) != 0 {
                    return;
                }
                spin_loop();
            }
            self.late.store(1, Ordering::SeqCst);
        }
    }
}

// What the devices of a run tell each other.
use crate::NoMemory;
use std::alloc::Global;
use std::sync::Arc;
use std::sync::atomic::{AtomicBool, AtomicU64, Ordering};

// What all handles of a service have.
#[derive(Drop)]
struct State {
    // How many lanes take connections, and how many were opened.
    taking: AtomicU64,
    opened: AtomicU64,
    store_is_lost: AtomicBool,
    is_stopped: AtomicBool,
}

/// What the real devices of a run tell each other: whether some lane takes connections, whether the store can be committed to,
/// and whether the machine has stopped. Once the first or the second is over, each lane and the ticks end, so that the run
/// does; once it has stopped, no node is asked any more. Nothing is promised of it.
#[derive(Drop)]
pub struct Service {
    state: Arc<State, Global>,
}

impl Service {
    /// A service without lanes, whose store isn't lost.
    pub fn new(alloc: Global) -> Result<Service, NoMemory> {
        let state = Arc::new(
            alloc,
            State {
                taking: AtomicU64::new(0),
                opened: AtomicU64::new(0),
                store_is_lost: AtomicBool::new(false),
                is_stopped: AtomicBool::new(false),
            },
        )?;
        Ok(Service { state })
    }

    /// The same service, for one more device. It fails where memory runs out, or numbers do.
    pub fn share(&self) -> Result<Service, NoMemory> {
        let state = Arc::try_clone(&self.state)?;
        Ok(Service { state })
    }

    /// Whether the store was lost.
    pub fn lost_store(&self) -> bool {
        self.state.store_is_lost.load(Ordering::SeqCst)
    }

    /// Whether nothing is served any more: the store was lost, or lanes were opened and none is left.
    pub fn is_over(&self) -> bool {
        let opened = self.state.opened.load(Ordering::SeqCst);
        let taking = self.state.taking.load(Ordering::SeqCst);
        self.lost_store() || opened > 0 && taking == 0
    }

    /// Whether the machine has stopped.
    pub fn has_stopped(&self) -> bool {
        self.state.is_stopped.load(Ordering::SeqCst)
    }

    /// No commit can be done any more.
    pub fn lose_store(&self) {
        self.state.store_is_lost.store(true, Ordering::SeqCst);
    }

    /// The machine has stopped.
    pub fn stop(&self) {
        self.state.is_stopped.store(true, Ordering::SeqCst);
    }

    /// A lane takes connections.
    pub fn open_lane(&self) {
        self.state.opened.fetch_add(1, Ordering::SeqCst);
        self.state.taking.fetch_add(1, Ordering::SeqCst);
    }

    /// A lane that took connections doesn't any more.
    pub fn close_lane(&self) {
        self.state.taking.fetch_sub(1, Ordering::SeqCst);
    }
}

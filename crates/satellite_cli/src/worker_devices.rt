// The workers of a term, and what they go by.
ghost use Rattle.std.specs.Prelude.{◌≡◌, [], IfOk};
ghost use Rattle.satellite_cli.specs.Serving.{Fits};

use bw_decode::Scratch;
use node_rounds::{AuditKit, Kit, RepairKit, RoundStore, TallyKit};
use sat_base::{Keeper, NoMemory};
use sat_book::Book;
use sat_sessions::Post;
use sat_term::{Kits, Workers};
use std::alloc::Global;

/// What the workers have: a post for each lane, and what the workers of audit, repair and tally have.
#[derive(Drop)]
pub(crate) struct WorkerDevices<L, N, T, W, I> {
    pub posts: Vec<Post<L, T, W>>,
    pub audit: Kit<N, T, W, I>,
    pub repair: Kit<N, T, W, I>,
    pub tally: Kit<N, T, W, I>,
}

/// What a worker that asks nodes goes by, and its decoder's room.
#[derive(Drop)]
pub(crate) struct Tool {
    pub store: RoundStore,
    pub scratch: Scratch,
}

/// Those of the workers of audit and repair.
#[derive(Drop)]
pub(crate) struct Tools {
    pub audit: Tool,
    pub repair: Tool,
}

/// What the worker of tallies doesn't use of its kit.
#[derive(Drop)]
pub(crate) struct Spare<N, W> {
    pub nodes: N,
    pub words: W,
}

// What a worker goes by, of the store that a book was opened over.
fn tool_of<K: Keeper>(alloc: Global, book: &Book<K>) -> Result<Tool, NoMemory>
    requires { book.now.history ≡ [] }
    ensures { IfOk result (λ tool. Fits book.now.opening tool.store tool.scratch) }
{
    let store = RoundStore::of(book);
    let scratch = Scratch::new(alloc, &store.scheme)?;
    Ok(Tool { store, scratch })
}

/// What the workers go by, of the store that a book was opened over.
pub(crate) fn tools_of<K: Keeper>(alloc: Global, book: &Book<K>) -> Result<Tools, NoMemory>
    requires { book.now.history ≡ [] }
    ensures audit { IfOk result (λ tools. Fits book.now.opening tools.audit.store tools.audit.scratch) }
    ensures repair { IfOk result (λ tools. Fits book.now.opening tools.repair.store tools.repair.scratch) }
{
    let audit = tool_of(alloc, book)?;
    let repair = tool_of(alloc, book)?;
    Ok(Tools { audit, repair })
}

/// A worker of auditors, repairers and tallies.
pub(crate) type RunWorkers<L, N, T, W, I> = Workers<
    L,
    T,
    W,
    AuditKit<N, T, W, I>,
    RepairKit<N, T, W, I>,
    TallyKit<T, I>,
>;

/// The workers of a devices, and what is left of it.
pub(crate) fn workers_of<L, N, T, W, I>(
    devices: WorkerDevices<L, N, T, W, I>,
    tools: Tools,
) -> (RunWorkers<L, N, T, W, I>, Spare<N, W>)
    ensures posts { result.0.posts ≡ devices.posts }
    ensures audit { result.0.kits.audit ≡ record { kit = devices.audit; store = tools.audit.store; scratch = tools.audit.scratch } }
    ensures repair { result.0.kits.repair ≡ record { kit = devices.repair; store = tools.repair.store; scratch = tools.repair.scratch } }
    ensures tally { result.0.kits.tally ≡ record { clock = devices.tally.clock; ticks = devices.tally.ticks } }
    ensures spare { result.1 ≡ record { nodes = devices.tally.nodes; words = devices.tally.words } }
{
    let WorkerDevices {
        posts,
        audit,
        repair,
        tally,
    } = devices;
    let Kit {
        nodes,
        clock,
        words,
        ticks,
    } = tally;
    let kits = Kits {
        audit: AuditKit {
            kit: audit,
            store: tools.audit.store,
            scratch: tools.audit.scratch,
        },
        repair: RepairKit {
            kit: repair,
            store: tools.repair.store,
            scratch: tools.repair.scratch,
        },
        tally: TallyKit { clock, ticks },
    };
    (Workers { posts, kits }, Spare { nodes, words })
}

/// The devices of a workers.
pub(crate) fn devices_of<L, N, T, W, I>(
    workers: RunWorkers<L, N, T, W, I>,
    spare: Spare<N, W>,
) -> WorkerDevices<L, N, T, W, I>
    ensures { result ≡ record {
      posts = workers.posts;
      audit = workers.kits.audit.kit;
      repair = workers.kits.repair.kit;
      tally = record { nodes = spare.nodes; clock = workers.kits.tally.clock; words = spare.words; ticks = workers.kits.tally.ticks };
    } }
{
    let Workers { posts, kits } = workers;
    let Kits {
        audit,
        repair,
        tally,
    } = kits;
    let Spare { nodes, words } = spare;
    let TallyKit { clock, ticks } = tally;
    WorkerDevices {
        posts,
        audit: audit.kit,
        repair: repair.kit,
        tally: Kit {
            nodes,
            clock,
            words,
            ticks,
        },
    }
}

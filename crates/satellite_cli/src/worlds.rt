// Commands over the devices of a world.
ghost use Rattle.std.specs.Prelude.{◌≡◌, ◌≤◌, ◌⊎◌, None, IfSome, length};
ghost use Rattle.sat_base.specs.declared.limits.TheConstants as limits;
ghost use Rattle.sat_base.specs.Rows.{Rows};
ghost use Rattle.sat_book.specs.Book.{BookView, start_of};
ghost use Rattle.sat_book.specs.Openings.{Opens};
ghost use Rattle.sat_console.specs.Run.{code_of};
ghost use Rattle.sat_init.specs.Init.{IsMade};
ghost use Rattle.satellite_cli.specs.Drilling.{Drills};
ghost use Rattle.satellite_cli.specs.Making.{Inits};
ghost use Rattle.satellite_cli.specs.Printing.{IsPrinted};
ghost use Rattle.satellite_cli.specs.Serving.{IsIdle, IsTerm, NotOpened, devices_view};

use crate::drilling::{Drill, make_drill};
use crate::making::make_store;
use crate::printing::{Looked, print_sheet};
use crate::serving::{Run, serve};
use crate::worker_devices::WorkerDevices;
use crate::world::{Ended, World};
use sat_base::{Clock, Gate, Keeper, Lane, Link, Month, Nodes, Ticks, Words};
use sat_console::Status;
use sat_init::Setup;
use std::alloc::Global;
use std::sync::Wait;
use std::thread::Threads;

pub(crate) fn ended<
    C: Link,
    K: Keeper + Send,
    L: Lane,
    N,
    T: Clock + Send,
    W: Words + Send,
    I,
    G: Gate,
>(status: Status, world: World<C, K, L, N, T, W, I, G>) -> Ended<C, K, L, N, T, W, I, G>
    ensures { result ≡ record { status = code_of status; world = world; term = None; drilled = None } }
{
    Ended {
        status: status.code(),
        world,
        term: None,
        drilled: None,
    }
}

// `init` over a world.
pub(crate) fn init_world<
    C: Link,
    K: Keeper + Send,
    L: Lane,
    N,
    T: Clock + Send,
    W: Words + Send,
    I,
    G: Gate,
>(
    alloc: Global,
    setup: &Setup,
    world: World<C, K, L, N, T, W, I, G>,
) -> Ended<C, K, L, N, T, W, I, G>
    ensures not_usage { result.status ≡ 2 → ⊥ }
    ensures inits { Inits setup.now (record {
      coming = T.coming world.audit.clock;
      coming_after = T.coming result.world.audit.clock;
      words = W.left world.audit.words;
      words_after = W.left result.world.audit.words;
    }) result.status (C.about world.console) (C.about result.world.console)
        (K.about world.keeper).faults (K.about result.world.keeper).faults
        (W.faults world.audit.words) (W.faults result.world.audit.words)
        ((K.about result.world.keeper).is_open × (K.about world.keeper).tells) (K.about world.keeper).rows (K.about result.world.keeper).rows }
    ensures others { result.world ≡ record world {
      console = result.world.console;
      keeper = result.world.keeper;
      audit = record world.audit { clock = result.world.audit.clock; words = result.world.audit.words };
    } }
    ensures nothing { (result.term ≡ None) × (result.drilled ≡ None) }
    ensures crash { (K.about result.world.keeper).is_clean → (m : Rows) → (K.about result.world.keeper).leaves m → (K.about world.keeper).leaves m
        ⊎ ((K.about world.keeper).is_open × IsMade setup.now (K.about world.keeper).tells (K.about world.keeper).rows m) }
{
    let mut world = world;
    let status = make_store(
        alloc,
        setup,
        &mut world.console,
        &mut world.keeper,
        &mut world.audit.clock,
        &mut world.audit.words,
    );
    ended(status, world)
}

// `serve` over a world.
pub(crate) fn serve_world<
    C: Link,
    K: Keeper + Send,
    L: Lane,
    N: Nodes + Send,
    T: Clock + Send,
    W: Words + Send,
    I: Ticks + Send,
    G: Gate,
    R: Threads + Wait + Sync,
>(
    rt: &R,
    alloc: Global,
    term: u64,
    world: World<C, K, L, N, T, W, I, G>,
) -> Ended<C, K, L, N, T, W, I, G>
    requires term { (1 ≤ term) × (term ≤ limits.TERM) }
    requires few { length world.posts.items ≤ 16 }
    ensures not_usage { result.status ≡ 2 → ⊥ }
    ensures closed { result.term ≡ None → NotOpened K.about
        world.keeper result.world.keeper result.status (C.about world.console) (C.about result.world.console)
        × (result.world ≡ record world { console = result.world.console; keeper = result.world.keeper }) }
    ensures term { IfSome result.term (λ t. (book : BookView K) × Opens K.about
        world.keeper term book
        × (IsTerm K.about (start_of book.opening).setup.secret term book result.world.keeper t
        result.status (C.about world.console) (C.about result.world.console)
        (devices_view L.about T.coming W.left W.faults N.held N.asks N.faults I.about world.posts.items world.audit world.repair world.tally)
        (devices_view L.about T.coming W.left W.faults N.held N.asks N.faults I.about result.world.posts.items result.world.audit result.world.repair result.world.tally)
        ⊎ (IsIdle K.about (length world.posts.items) book result.world.keeper t
        result.status (C.about world.console) (C.about result.world.console)
        × (result.world ≡ record world { console = result.world.console; keeper = result.world.keeper })))) }
    ensures spare { (result.world.tally.nodes ≡ world.tally.nodes) × (result.world.tally.words ≡ world.tally.words) }
    ensures gate { result.world.gate ≡ world.gate }
    ensures no_drill { result.drilled ≡ None }
{
    let World {
        mut console,
        keeper,
        posts,
        audit,
        repair,
        tally,
        gate,
    } = world;
    let devices = WorkerDevices {
        posts,
        audit,
        repair,
        tally,
    };
    let run = serve(rt, alloc, term, &mut console, keeper, devices, &gate);
    let Run {
        status,
        keeper,
        devices,
        term,
    } = run;
    let WorkerDevices {
        posts,
        audit,
        repair,
        tally,
    } = devices;
    Ended {
        status: status.code(),
        world: World {
            console,
            keeper,
            posts,
            audit,
            repair,
            tally,
            gate,
        },
        term,
        drilled: None,
    }
}

// `sheet` over a world.
pub(crate) fn sheet_world<
    C: Link,
    K: Keeper + Send,
    L: Lane,
    N,
    T: Clock + Send,
    W: Words + Send,
    I,
    G: Gate,
>(
    alloc: Global,
    month: Month,
    world: World<C, K, L, N, T, W, I, G>,
) -> Ended<C, K, L, N, T, W, I, G>
    ensures not_usage { result.status ≡ 2 → ⊥ }
    ensures printed { IsPrinted K.about month.0
        world.keeper result.world.keeper result.status (C.about world.console) (C.about result.world.console) }
    ensures others { (result.world ≡ record world { console = result.world.console; keeper = result.world.keeper }) × (result.term ≡ None) }
    ensures no_drill { result.drilled ≡ None }
{
    let World {
        mut console,
        keeper,
        posts,
        audit,
        repair,
        tally,
        gate,
    } = world;
    let Looked { keeper, status } = print_sheet(alloc, &mut console, keeper, month);
    ended(
        status,
        World {
            console,
            keeper,
            posts,
            audit,
            repair,
            tally,
            gate,
        },
    )
}

// `drill` over a world.
pub(crate) fn drill_world<
    C: Link,
    K: Keeper + Send,
    L: Lane,
    N,
    T: Clock + Send,
    W: Words + Send,
    I,
    G: Gate,
>(
    alloc: Global,
    start: u64,
    calls: u64,
    world: World<C, K, L, N, T, W, I, G>,
) -> Ended<C, K, L, N, T, W, I, G>
    requires { (1 ≤ calls) × (calls ≤ 20000) }
    ensures not_usage { result.status ≡ 2 → ⊥ }
    ensures drills { Drills result.status (C.about world.console) (C.about result.world.console) result.drilled }
    ensures others { (result.world ≡ record world { console = result.world.console }) × (result.term ≡ None) }
{
    let mut world = world;
    let drill = make_drill(alloc, &mut world.console, start, calls);
    let Drill { status, drilled } = drill;
    Ended {
        status: status.code(),
        world,
        term: None,
        drilled,
    }
}

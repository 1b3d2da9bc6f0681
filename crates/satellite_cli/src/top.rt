// The top call.
ghost use Rattle.std.specs.Prelude.{◌≡◌, ◌≤◌, ◌⊎◌, ℕ, List, [], Some, None, IfSome, length, map, MatchResult, false};
ghost use Rattle.sat_base.specs.Outside.{Rose};
ghost use Rattle.sat_base.specs.Rows.{AreThe, Rows};
ghost use Rattle.command_line.specs.Command.{MonthSheet, NewStore, Server, command_of, names_store};
ghost use Rattle.command_line.specs.Command.Asked.{settle, judge, init, serve, sheet, drill};
ghost use Rattle.sat_book.specs.Book.{BookView, start_of};
ghost use Rattle.sat_book.specs.Openings.{Opens};
ghost use Rattle.sat_console.specs.Answers.{IsSettleText, answers_to};
ghost use Rattle.sat_console.specs.Judge.{Judges, RefusesLine, shares_of};
ghost use Rattle.sat_console.specs.Once.{SettlesOnce};
ghost use Rattle.sat_console.specs.Run.{NoRefusal, Ran, Says, code_of, fault_line, max_input};
ghost use Rattle.sat_init.specs.Init.{IsMade};
ghost use Rattle.sat_init.specs.declared.setup.Setup.{Setup};
ghost use Rattle.sat_sessions.specs.Lanes.{post_view};
ghost use Rattle.satellite_cli.specs.Making.{Inits, IsAsked};
ghost use Rattle.satellite_cli.specs.Drilling.{Drills};
ghost use Rattle.satellite_cli.specs.Printing.{IsPrinted};
ghost use Rattle.satellite_cli.specs.Serving.{AreSound, IsIdle, IsTerm, NoneRose, NotOpened, devices_view};

use crate::world::{Ended, World};
use crate::worlds::{drill_world, ended, init_world, serve_world, sheet_world};
use command_line::{Command, LineErr, read_line};
use sat_base::{Clock, Gate, Keeper, Lane, Line, Link, Nodes, Ticks, Words};
use sat_console::{Status, fault, judge, settle};
use sat_init::Setup;
use std::alloc::Global;
use std::sync::Wait;
use std::thread::Threads;

/// Runs the command that the words are, over the devices of a world.
///
/// `settle` reads orders from the console, one a line as `NODE MOMENT HEX`, and answers each with one line.
/// `judge` reads the answers to an audit of one stripe, one a line as `INDEX HEX` by rising index, and writes one
/// line, which says the indexes whose shares were altered. Both take an input of at most 1048576 bytes.
/// `init` makes a store in the keeper, which has to have no rows, and writes the operator's key.
/// `sheet` prints what each node's operator is owed for a month that is closed.
/// `drill` drives a machine in memory by a number, and prints what came of it.
///
/// The status says how it ended; each has its cause. The console's faults are counted by it.
pub fn satellite<
    C: Link,
    K: Keeper + Send,
    L: Lane,
    N: Nodes + Send,
    T: Clock + Send,
    W: Words + Send,
    I: Ticks + Send,
    G: Gate,
    R: Threads + Wait + Sync,
>(
    rt: &R,
    alloc: Global,
    line: &Line,
    world: World<C, K, L, N, T, W, I, G>,
) -> Ended<C, K, L, N, T, W, I, G>
    requires { length world.posts.items ≤ 16 }

    // 2 exactly where the words are outside the grammar; and then the console says so.
    ensures usage { command_of line.now ≡ None → result.status ≡ 2 }
    ensures only_usage { result.status ≡ 2 → command_of line.now ≡ None }
    ensures usage_line { result.status ≡ 2 →
        Says (fault_line (code_of Status.Usage)) (C.about world.console) (C.about result.world.console) }

    // `settle`: what was read and written, and the cause of each status. It refuses no input.
    ensures settle { (secret : List ℕ) (cap : ℕ) → command_of line.now ≡ Some (settle secret cap) →
        Ran (IsSettleText secret cap) NoRefusal
        (C.about world.console) (C.about result.world.console) result.status }

    // A short input and no fault: 0, or out of memory.
    ensures complete { (secret : List ℕ) (cap : ℕ) (bytes : List ℕ) →
        command_of line.now ≡ Some (settle secret cap) →
        (C.about world.console).left ≡ Some bytes → length bytes ≤ max_input →
        (Rose (C.about world.console).read_faults (C.about result.world.console).read_faults → ⊥) →
        (Rose (C.about world.console).write_faults (C.about result.world.console).write_faults → ⊥) →
        (result.status ≡ 0) ⊎ (result.status ≡ 9) }

    // The law of its answers: nothing settles twice, and nothing above its limit.
    ensures once { (secret : List ℕ) (cap : ℕ) (lines : List (List ℕ)) →
        SettlesOnce secret lines (answers_to secret cap lines) }

    // `judge`: the same of the line that the verdict on the shares is. It refuses only an input of which a
    // line has another form or an index that doesn't rise.
    ensures judge { (k size : ℕ) → command_of line.now ≡ Some (judge k size) →
        Ran (Judges k size) RefusesLine
        (C.about world.console) (C.about result.world.console) result.status }

    // A short input and no fault: by its lines 0 or 8, or out of memory.
    ensures judge_complete { (k size : ℕ) (bytes : List ℕ) →
        command_of line.now ≡ Some (judge k size) →
        (C.about world.console).left ≡ Some bytes → length bytes ≤ max_input →
        (Rose (C.about world.console).read_faults (C.about result.world.console).read_faults → ⊥) →
        (Rose (C.about world.console).write_faults (C.about result.world.console).write_faults → ⊥) →
        MatchResult (shares_of bytes)
        (λ shares. (result.status ≡ 0) ⊎ (result.status ≡ 9))
        (λ number. (result.status ≡ 8) ⊎ (result.status ≡ 9)) }

    // A command without a store leaves all but the console as it was.
    ensures idle { names_store (command_of line.now) ≡ false →
        (result.world ≡ record world { console = result.world.console }) × (result.term ≡ None) }

    // `init`: the store that was made, and the key that was written; or why there is none, and the keeper's rows as they were.
    ensures init { (store : NewStore) → command_of line.now ≡ Some (init store) →
        ((setup : Setup) × IsAsked store setup × Inits setup (record {
          coming = T.coming world.audit.clock;
          coming_after = T.coming result.world.audit.clock;
          words = W.left world.audit.words;
          words_after = W.left result.world.audit.words;
        }) result.status (C.about world.console) (C.about result.world.console)
        (K.about world.keeper).faults (K.about result.world.keeper).faults
        (W.faults world.audit.words) (W.faults result.world.audit.words)
        ((K.about result.world.keeper).is_open × (K.about world.keeper).tells) (K.about world.keeper).rows (K.about result.world.keeper).rows)
        ⊎ ((result.status ≡ 9) × (result.world.keeper ≡ world.keeper)
        × Says (fault_line 9) (C.about world.console) (C.about result.world.console)) }

    // Over an empty store, while no count rises: 0, or out of memory.
    ensures init_complete { (store : NewStore) → command_of line.now ≡ Some (init store) →
        (K.about result.world.keeper).is_open → (K.about world.keeper).tells → AreThe (K.about world.keeper).rows [] →
        (Rose (K.about world.keeper).faults (K.about result.world.keeper).faults → ⊥) →
        (Rose (W.faults world.audit.words) (W.faults result.world.audit.words) → ⊥) →
        (Rose (C.about world.console).write_faults (C.about result.world.console).write_faults → ⊥) →
        (result.status ≡ 0) ⊎ (result.status ≡ 9) }

    // A crash leaves the rows that the keeper might have left before, or those of the store that was asked for.
    ensures crash { (store : NewStore) → command_of line.now ≡ Some (init store) →
        (K.about result.world.keeper).is_clean → (m : Rows) → (K.about result.world.keeper).leaves m → (K.about world.keeper).leaves m
        ⊎ ((setup : Setup) × IsAsked store setup × (K.about world.keeper).is_open × IsMade setup (K.about world.keeper).tells (K.about world.keeper).rows m) }
    // `serve`: without a book, why there is none; all other devices are handed back.
    ensures closed { (server : Server) → command_of line.now ≡ Some (serve server) → result.term ≡ None →
        NotOpened K.about
        world.keeper result.world.keeper result.status (C.about world.console) (C.about result.world.console)
        × (result.world ≡ record world { console = result.world.console; keeper = result.world.keeper }) }

    // With one, the term: its history is that of one machine, of which each worker made just the entries that its sessions or
    // rounds name; the keeper has the rows of its replay; what each round asked and found; and how each worker, and the run,
    // ended. Or memory ran out before the workers began.
    ensures serve { (server : Server) → command_of line.now ≡ Some (serve server) →
        IfSome result.term (λ t. (book : BookView K) × Opens K.about
        world.keeper server.term book
        × (IsTerm K.about (start_of book.opening).setup.secret server.term book result.world.keeper t
        result.status (C.about world.console) (C.about result.world.console)
        (devices_view L.about T.coming W.left W.faults N.held N.asks N.faults I.about world.posts.items world.audit world.repair world.tally)
        (devices_view L.about T.coming W.left W.faults N.held N.asks N.faults I.about result.world.posts.items result.world.audit result.world.repair result.world.tally)
        ⊎ (IsIdle K.about (length world.posts.items) book result.world.keeper t
        result.status (C.about world.console) (C.about result.world.console)
        × (result.world ≡ record world { console = result.world.console; keeper = result.world.keeper })))) }

    // Over sound rows, while no count rises, and unless the term was full or a lane had all its sessions: 0, or out of memory.
    ensures serve_complete { (server : Server) → command_of line.now ≡ Some (serve server) →
        (K.about result.world.keeper).is_open → (K.about world.keeper).tells → AreSound (K.about world.keeper).rows →
        (Rose (K.about world.keeper).faults (K.about result.world.keeper).faults → ⊥) →
        (Rose (C.about world.console).write_faults (C.about result.world.console).write_faults → ⊥) →
        NoneRose (map (post_view L.about T.coming W.left W.faults) world.posts.items)
        (map (post_view L.about T.coming W.left W.faults) result.world.posts.items) →
        (Rose (W.faults world.audit.words) (W.faults result.world.audit.words) → ⊥) →
        (Rose (W.faults world.repair.words) (W.faults result.world.repair.words) → ⊥) →
        (result.status ≡ 6 → ⊥) →
        (result.status ≡ 0) ⊎ (result.status ≡ 9) }

    // `sheet`: why there is no book; or what was printed of it, and its keeper.
    ensures sheet { (asked : MonthSheet) → command_of line.now ≡ Some (sheet asked) →
        IsPrinted K.about asked.month
        world.keeper result.world.keeper result.status (C.about world.console) (C.about result.world.console)
        × (result.world ≡ record world { console = result.world.console; keeper = result.world.keeper }) × (result.term ≡ None) }

    // Over sound rows, while no count rises, and of a month that is closed: 0, or out of memory.
    ensures sheet_complete { (asked : MonthSheet) → command_of line.now ≡ Some (sheet asked) →
        (K.about result.world.keeper).is_open → (K.about world.keeper).tells → AreSound (K.about world.keeper).rows →
        (Rose (K.about world.keeper).faults (K.about result.world.keeper).faults → ⊥) →
        (Rose (C.about world.console).write_faults (C.about result.world.console).write_faults → ⊥) →
        (result.status ≡ 8 → ⊥) →
        (result.status ≡ 0) ⊎ (result.status ≡ 9) }

    // `drill`: its history is that of one machine whose store never failed, and what was written grew by the text that tells of
    // it; at status 5 by a front of that. Or memory ran out. No other command makes one.
    ensures drill { (start calls : ℕ) → command_of line.now ≡ Some (drill start calls) →
        Drills result.status (C.about world.console) (C.about result.world.console) result.drilled }
    ensures no_drill { ((start calls : ℕ) → command_of line.now ≡ Some (drill start calls) → ⊥) → result.drilled ≡ None }

    // While no count rises: 0, or out of memory.
    ensures drill_complete { (start calls : ℕ) → command_of line.now ≡ Some (drill start calls) →
        (Rose (C.about world.console).write_faults (C.about result.world.console).write_faults → ⊥) →
        (result.status ≡ 0) ⊎ (result.status ≡ 9) }

    // No other command than `serve` uses more than the console, the keeper, and what `init` draws.
    ensures others { ((server : Server) → command_of line.now ≡ Some (serve server) → ⊥) →
        result.world ≡ record world {
          console = result.world.console;
          keeper = result.world.keeper;
          audit = record world.audit { clock = result.world.audit.clock; words = result.world.audit.words };
        } }

    // The worker of tallies asks no node and draws no word, and the gate is handed back.
    ensures spare { (result.world.tally.nodes ≡ world.tally.nodes) × (result.world.tally.words ≡ world.tally.words) }
    ensures gate { result.world.gate ≡ world.gate }
{
    let mut world = world;
    let status = match read_line(alloc, line) {
        Ok(Command::Settle { secret, cap }) => settle(alloc, &mut world.console, secret, cap),
        Ok(Command::Judge { k, share }) => judge(alloc, &mut world.console, k, share),
        Ok(
            Command::Init {
                store: _,
                secret,
                scheme,
                vet,
                fresh,
                rates,
                caps,
            },
        ) => {
            let setup = Setup {
                secret,
                scheme,
                vet,
                fresh,
                rates,
                caps,
            };
            return init_world(alloc, &setup, world);
        }
        Ok(Command::Serve { term, .. }) => return serve_world(rt, alloc, term, world),
        Ok(Command::Sheet { month, .. }) => return sheet_world(alloc, month, world),
        Ok(Command::Drill { start, calls }) => return drill_world(alloc, start, calls, world),
        Err(LineErr::Usage) => fault(&mut world.console, Status::Usage),
        Err(LineErr::NoMemory) => {
            let status = fault(&mut world.console, Status::NoMemory);
            return ended(status, world);
        }
    };
    ended(status, world)
}

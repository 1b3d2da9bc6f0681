// The kits, each in a thread of its own.
ghost use Rattle.std.specs.Prelude.{◌≡◌, IsSome};
ghost use Rattle.sat_book.specs.Book.{opening_of};
ghost use Rattle.sat_sessions.specs.Rounds.{RoundsRan};

use crate::term::{Kits, KitsWorked};
use sat_base::{Gate, Keeper};
use sat_book::Book;
use sat_sessions::{BookPass, RoundKit, RoundsWorked};
use std::alloc::Global;
use std::sync::Wait;
use std::thread::{Threads, join};
use turnstile::Desk;

// Works two kits: repair and tally.
fn work_two<
    K: Keeper + Send,
    B: RoundKit + Send,
    C: RoundKit + Send,
    G: Gate,
    R: Threads + Wait + Sync,
>(
    rt: &R,
    alloc: Global,
    desk: &Desk<Book<K>>,
    for_repair: BookPass<K>,
    for_tally: BookPass<K>,
    gate: &G,
    repair: B,
    tally: C,
) -> (RoundsWorked<K, B>, RoundsWorked<K, C>)
    requires repair { (for_repair.desk ≡ desk.now) × IsSome for_repair.base }
    requires tally { (for_tally.desk ≡ desk.now) × IsSome for_tally.base }
    requires repair_fits { B.fits (opening_of for_repair.base) repair }
    requires tally_fits { C.fits (opening_of for_tally.base) tally }
    ensures repair { RoundsRan (B.tells (opening_of for_repair.base)) (B.view repair) for_repair result.0.rounds.items result.0.end (B.view result.0.kit) result.0.pass }
    ensures tally { RoundsRan (C.tells (opening_of for_tally.base)) (C.view tally) for_tally result.1.rounds.items result.1.end (C.view result.1.kit) result.1.pass }
{
    join(
        rt,
        move || -> RoundsWorked<K, B>
            requires { ((for_repair.desk ≡ desk.now) × IsSome for_repair.base) × B.fits (opening_of for_repair.base) repair }
            ensures { RoundsRan (B.tells (opening_of for_repair.base)) (B.view repair) for_repair result.rounds.items result.end (B.view result.kit) result.pass }
        { repair.work(rt, alloc, desk, for_repair, gate) },
        move || -> RoundsWorked<K, C>
            requires { ((for_tally.desk ≡ desk.now) × IsSome for_tally.base) × C.fits (opening_of for_tally.base) tally }
            ensures { RoundsRan (C.tells (opening_of for_tally.base)) (C.view tally) for_tally result.rounds.items result.end (C.view result.kit) result.pass }
        { tally.work(rt, alloc, desk, for_tally, gate) },
    )
}

// Works all three.
pub(crate) fn work_kits<
    K: Keeper + Send,
    A: RoundKit + Send,
    B: RoundKit + Send,
    C: RoundKit + Send,
    G: Gate,
    R: Threads + Wait + Sync,
>(
    rt: &R,
    alloc: Global,
    desk: &Desk<Book<K>>,
    for_audit: BookPass<K>,
    for_repair: BookPass<K>,
    for_tally: BookPass<K>,
    gate: &G,
    kits: Kits<A, B, C>,
) -> KitsWorked<K, A, B, C>
    requires audit { (for_audit.desk ≡ desk.now) × IsSome for_audit.base }
    requires repair { (for_repair.desk ≡ desk.now) × IsSome for_repair.base }
    requires tally { (for_tally.desk ≡ desk.now) × IsSome for_tally.base }
    requires audit_fits { A.fits (opening_of for_audit.base) kits.audit }
    requires repair_fits { B.fits (opening_of for_repair.base) kits.repair }
    requires tally_fits { C.fits (opening_of for_tally.base) kits.tally }
    ensures audit { RoundsRan (A.tells (opening_of for_audit.base)) (A.view kits.audit) for_audit result.audit.rounds.items result.audit.end (A.view result.audit.kit) result.audit.pass }
    ensures repair { RoundsRan (B.tells (opening_of for_repair.base)) (B.view kits.repair) for_repair result.repair.rounds.items result.repair.end (B.view result.repair.kit) result.repair.pass }
    ensures tally { RoundsRan (C.tells (opening_of for_tally.base)) (C.view kits.tally) for_tally result.tally.rounds.items result.tally.end (C.view result.tally.kit) result.tally.pass }
{
    let Kits {
        audit,
        repair,
        tally,
    } = kits;
    let (audit, others) = join(
        rt,
        move || -> RoundsWorked<K, A>
            requires { ((for_audit.desk ≡ desk.now) × IsSome for_audit.base) × A.fits (opening_of for_audit.base) audit }
            ensures { RoundsRan (A.tells (opening_of for_audit.base)) (A.view audit) for_audit result.rounds.items result.end (A.view result.kit) result.pass }
        { audit.work(rt, alloc, desk, for_audit, gate) },
        move || -> (RoundsWorked<K, B>, RoundsWorked<K, C>)
            requires { ((for_repair.desk ≡ desk.now) × IsSome for_repair.base) × ((for_tally.desk ≡ desk.now) × IsSome for_tally.base) × B.fits (opening_of for_repair.base) repair × C.fits (opening_of for_tally.base) tally }
            ensures repair { RoundsRan (B.tells (opening_of for_repair.base)) (B.view repair) for_repair result.0.rounds.items result.0.end (B.view result.0.kit) result.0.pass }
            ensures tally { RoundsRan (C.tells (opening_of for_tally.base)) (C.view tally) for_tally result.1.rounds.items result.1.end (C.view result.1.kit) result.1.pass }
        { work_two(rt, alloc, desk, for_repair, for_tally, gate, repair, tally) },
    );
    let (repair, tally) = others;
    KitsWorked {
        audit,
        repair,
        tally,
    }
}

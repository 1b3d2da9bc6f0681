// All workers at once.
ghost use Rattle.std.specs.Prelude.{◌≡◌, ◌+◌, ◌^◌, ◌≤◌, length, map, vec_capacity, IsSome};
ghost use Rattle.sat_book.specs.Book.{opening_of};
ghost use Rattle.sat_sessions.specs.Lanes.{post_view};
ghost use Rattle.sat_sessions.specs.Rounds.{RoundsRan};
ghost use Rattle.sat_term.specs.Workers.{AllDone, IsBlank, IsFilled, LanesDone, Parted, kits_view};

use crate::kits::work_kits;
use crate::lanes::work_lanes;
use crate::term::{Kits, KitsWorked, LanesWorked, TermLog, Worked, Workers};
use order_limits::Keys;
use sat_base::{Clock, Gate, Keeper, Lane, Words};
use sat_book::Book;
use sat_sessions::{BookPass, Post, RoundKit, RoundsWorked};
use std::alloc::Global;
use std::sync::Wait;
use std::thread::{Threads, join};
use turnstile::Desk;

// The passes of the lanes and of the workers of rounds.
struct Parts<K> {
    lanes: BookPass<K>,
    audit: BookPass<K>,
    repair: BookPass<K>,
    tally: BookPass<K>,
}

// Cuts a pass into those of the workers of rounds and one for the lanes, whose numbers come first. The kits fit them too.
fn part<K: Keeper, A: RoundKit, B: RoundKit, C: RoundKit>(
    desk: &Desk<Book<K>>,
    pass: BookPass<K>,
    kits: &Kits<A, B, C>,
) -> Parts<K>
    requires desk { pass.desk ≡ desk.now }
    requires base { IsSome pass.base }
    requires spare { 2 ^ 19 ≤ pass.spare }
    requires audit_fits { A.fits (opening_of pass.base) kits.now.audit }
    requires repair_fits { B.fits (opening_of pass.base) kits.now.repair }
    requires tally_fits { C.fits (opening_of pass.base) kits.now.tally }
    ensures lanes { (result.lanes.desk ≡ desk.now) × IsSome result.lanes.base }
    ensures audit { (result.audit.desk ≡ desk.now) × IsSome result.audit.base }
    ensures repair { (result.repair.desk ≡ desk.now) × IsSome result.repair.base }
    ensures tally { (result.tally.desk ≡ desk.now) × IsSome result.tally.base }
    ensures bases { (result.audit.base ≡ pass.base) × (result.repair.base ≡ pass.base) × (result.tally.base ≡ pass.base) }
    ensures audit_fits { A.fits (opening_of result.audit.base) kits.now.audit }
    ensures repair_fits { B.fits (opening_of result.repair.base) kits.now.repair }
    ensures tally_fits { C.fits (opening_of result.tally.base) kits.now.tally }
    ensures spare { 2 ^ 16 ≤ result.lanes.spare }
    ensures parted { Parted pass result.lanes result.audit result.repair result.tally }
{
    let (rest, tally) = desk.split(pass);
    let (rest, repair) = desk.split(rest);
    let (lanes, audit) = desk.split(rest);
    Parts {
        lanes,
        audit,
        repair,
        tally,
    }
}

// Works the lanes, with numbers enough for 16.
fn work_posts<
    K: Keeper + Send,
    L: Lane,
    T: Clock + Send,
    W: Words + Send,
    G: Gate,
    R: Threads + Wait + Sync,
>(
    rt: &R,
    alloc: Global,
    desk: &Desk<Book<K>>,
    pass: BookPass<K>,
    keys: &Keys,
    posts: Vec<Post<L, T, W>>,
    gate: &G,
    log: TermLog,
) -> LanesWorked<K, L, T, W>
    requires desk { (pass.desk ≡ desk.now) × IsSome pass.base }
    requires spare { 2 ^ 16 ≤ pass.spare }
    requires few { length posts.items ≤ 16 }
    requires log { IsBlank (length posts.items) log }
    ensures filled { IsFilled (length posts.items) log result.log }
    ensures done { LanesDone keys.now desk.now.term pass (map (post_view L.about T.coming W.left W.faults) posts.items) result.pass
        (map (post_view L.about T.coming W.left W.faults) result.posts.items) result.log }
{
    work_lanes(rt, alloc, desk, pass, keys, posts, gate, log)
}

// Works all posts and kits at once. Where no thread is to be had the lanes are worked, and then the kits.
pub(crate) fn work_all<
    K: Keeper + Send,
    L: Lane,
    T: Clock + Send,
    W: Words + Send,
    A: RoundKit + Send,
    B: RoundKit + Send,
    C: RoundKit + Send,
    G: Gate,
    R: Threads + Wait + Sync,
>(
    rt: &R,
    alloc: Global,
    desk: &Desk<Book<K>>,
    pass: BookPass<K>,
    keys: &Keys,
    workers: Workers<L, T, W, A, B, C>,
    gate: &G,
    log: TermLog,
) -> Worked<K, L, T, W, A, B, C>
    requires desk { pass.desk ≡ desk.now }
    requires base { IsSome pass.base }
    requires spare { 2 ^ 19 ≤ pass.spare }
    requires few { length workers.posts.items ≤ 16 }
    requires log { IsBlank (length workers.posts.items) log }
    requires room { length workers.posts.items + 3 ≤ vec_capacity log.numbers }
    requires audit_fits { A.fits (opening_of pass.base) workers.kits.audit }
    requires repair_fits { B.fits (opening_of pass.base) workers.kits.repair }
    requires tally_fits { C.fits (opening_of pass.base) workers.kits.tally }
    ensures { AllDone (A.tells (opening_of pass.base)) (B.tells (opening_of pass.base)) (C.tells (opening_of pass.base)) keys.now desk.now.term pass
        (map (post_view L.about T.coming W.left W.faults) workers.posts.items) (kits_view A.view B.view C.view workers.kits) result.pass
        (map (post_view L.about T.coming W.left W.faults) result.workers.posts.items) (kits_view A.view B.view C.view result.workers.kits) result.log (record {
          audits = result.audits.items;
          repairs = result.repairs.items;
          tallies = result.tallies.items;
          audit_end = result.audit_end;
          repair_end = result.repair_end;
          tally_end = result.tally_end;
        }) }
{
    let Workers { posts, kits } = workers;
    let Parts {
        lanes: pass,
        audit: for_audit,
        repair: for_repair,
        tally: for_tally,
    } = part(desk, pass, &kits);
    let tally_number = for_tally.number();
    let repair_number = for_repair.number();
    let audit_number = for_audit.number();
    // Where no thread is to be had the second closure comes first: the lanes, since rounds end with the stop that they take.
    let (worked, lanes) = join(
        rt,
        move || -> KitsWorked<K, A, B, C>
            requires { ((for_audit.desk ≡ desk.now) × IsSome for_audit.base) × ((for_repair.desk ≡ desk.now) × IsSome for_repair.base) × ((for_tally.desk ≡ desk.now) × IsSome for_tally.base)
                × A.fits (opening_of for_audit.base) kits.audit × B.fits (opening_of for_repair.base) kits.repair × C.fits (opening_of for_tally.base) kits.tally }
            ensures audit { RoundsRan (A.tells (opening_of for_audit.base)) (A.view kits.audit) for_audit result.audit.rounds.items result.audit.end (A.view result.audit.kit) result.audit.pass }
            ensures repair { RoundsRan (B.tells (opening_of for_repair.base)) (B.view kits.repair) for_repair result.repair.rounds.items result.repair.end (B.view result.repair.kit) result.repair.pass }
            ensures tally { RoundsRan (C.tells (opening_of for_tally.base)) (C.view kits.tally) for_tally result.tally.rounds.items result.tally.end (C.view result.tally.kit) result.tally.pass }
        {
            work_kits(
                rt, alloc, desk, for_audit, for_repair, for_tally, gate, kits,
            )
        },
        move || -> LanesWorked<K, L, T, W>
            requires { ((pass.desk ≡ desk.now) × IsSome pass.base) × (2 ^ 16 ≤ pass.spare) × (length posts.items ≤ 16) × IsBlank (length posts.items) log }
            ensures filled { IsFilled (length posts.items) log result.log }
            ensures done { LanesDone keys.entry.now desk.entry.now.term pass (map (post_view L.about T.coming W.left W.faults) posts.items) result.pass (map (post_view L.about T.coming W.left W.faults) result.posts.items) result.log }
        { work_posts(rt, alloc, desk, pass, keys, posts, gate, log) },
    );
    let LanesWorked { pass, posts, log } = lanes;
    let KitsWorked {
        audit,
        repair,
        tally,
    } = worked;
    let TermLog {
        mut numbers,
        lanes,
        ends,
    } = log;
    let RoundsWorked {
        pass: from_audit,
        kit: audit,
        rounds: audits,
        end: audit_end,
    } = audit;
    let RoundsWorked {
        pass: from_repair,
        kit: repair,
        rounds: repairs,
        end: repair_end,
    } = repair;
    let RoundsWorked {
        pass: from_tally,
        kit: tally,
        rounds: tallies,
        end: tally_end,
    } = tally;
    let with_audit = desk.join(pass, from_audit);
    let with_repair = desk.join(with_audit, from_repair);
    let all = desk.join(with_repair, from_tally);
    numbers.push_reserved(audit_number);
    numbers.push_reserved(repair_number);
    numbers.push_reserved(tally_number);
    Worked {
        pass: all,
        workers: Workers {
            posts,
            kits: Kits {
                audit,
                repair,
                tally,
            },
        },
        log: TermLog {
            numbers,
            lanes,
            ends,
        },
        audits,
        repairs,
        tallies,
        audit_end,
        repair_end,
        tally_end,
    }
}

// The lanes, each in a thread of its own.
ghost use Rattle.std.specs.Prelude.{◌≡◌, ◌^◌, ◌≤◌, length, map, vec_capacity, IsSome};
ghost use Rattle.std.specs.Thread.{IsSync, IsSend};
ghost use Rattle.sat_sessions.specs.Lanes.{LaneRan, post_view};
ghost use Rattle.sat_term.specs.Workers.{IsBlank, IsFilled, LanesDone};

use crate::term::{LanesWorked, TermLog};
use order_limits::Keys;
use sat_base::{Clock, Gate, Keeper, Lane, Words};
use sat_book::Book;
use sat_sessions::{BookPass, LaneWorked, Post, lane_worker};
use std::alloc::Global;
use std::sync::Wait;
use std::thread::{Threads, join};
use turnstile::Desk;

// Works each lane in a thread of its own: the last one in the second of two, and those before it in the first.
pub(crate) fn work_lanes<
    K: Keeper + Send,
    L: Lane,
    T: Clock + Send,
    W: Words + Send,
    G: Gate,
    R: Threads + Wait + Sync,
>(
    rt: &R,
    alloc: Global,
    desk: &Desk<Book<K>>,
    pass: BookPass<K>,
    keys: &Keys,
    posts: Vec<Post<L, T, W>>,
    gate: &G,
    log: TermLog,
) -> LanesWorked<K, L, T, W>
    requires desk { pass.desk ≡ desk.now }
    requires base { IsSome pass.base }
    requires spare { 2 ^ length posts.items ≤ pass.spare }
    requires few { length posts.items ≤ 16 }
    requires log { IsBlank (length posts.items) log }
    ensures filled { IsFilled (length posts.items) log result.log }
    ensures room { (length result.posts.items ≡ length posts.items) × (vec_capacity result.posts ≡ vec_capacity posts) }
    ensures done { LanesDone keys.now desk.now.term pass (map (post_view L.about T.coming W.left W.faults) posts.items) result.pass
        (map (post_view L.about T.coming W.left W.faults) result.posts.items) result.log }
{
    let mut posts = posts;
    let post = match posts.pop() {
        Some(post) => post,
        None => return LanesWorked { pass, posts, log },
    };
    let lane = posts.len() as u16;
    let (mine, other) = desk.split(pass);
    let number = other.number();
    let (done, worked) = join(
        rt,
        move || -> LanesWorked<K, L, T, W>
            requires { IsSync R.row × IsSend K.row × IsSend L.row × IsSend L.Conn.row × IsSend T.row × IsSend W.row × IsSync G.row × (mine.desk ≡ desk.now) × IsSome mine.base × (2 ^ length posts.items ≤ mine.spare) × (length posts.items ≤ 16) × IsBlank (length posts.items) log }
            ensures filled { IsFilled (length posts.items) log result.log }
            ensures room { (length result.posts.items ≡ length posts.items) × (vec_capacity result.posts ≡ vec_capacity posts) }
            ensures done { LanesDone keys.entry.now desk.entry.now.term mine (map (post_view L.about T.coming W.left W.faults) posts.items) result.pass (map (post_view L.about T.coming W.left W.faults) result.posts.items) result.log }
        { work_lanes(rt, alloc, desk, mine, keys, posts, gate, log) },
        move || -> LaneWorked<K, L, T, W>
            requires { (other.desk ≡ desk.now) × IsSome other.base }
            ensures { LaneRan keys.entry.now desk.entry.now.term (post_view L.about T.coming W.left W.faults post) other result.sessions.items result.end (post_view L.about T.coming W.left W.faults result.post) result.pass }
        { lane_worker(rt, alloc, desk, other, keys, post, gate, lane) },
    );
    let LanesWorked {
        pass,
        mut posts,
        log,
    } = done;
    let LaneWorked {
        pass: other,
        post,
        sessions,
        end,
    } = worked;
    let TermLog {
        mut numbers,
        mut lanes,
        mut ends,
    } = log;
    let pass = desk.join(pass, other);
    posts.push_reserved(post);
    numbers.push_reserved(number);
    lanes.push_reserved(sessions);
    ends.push_reserved(end);
    LanesWorked {
        pass,
        posts,
        log: TermLog {
            numbers,
            lanes,
            ends,
        },
    }
}

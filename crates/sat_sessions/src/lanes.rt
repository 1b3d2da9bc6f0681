// The worker of a lane.
ghost use Rattle.std.specs.Prelude.{◌≡◌, IsSome};
ghost use Rattle.sat_sessions.specs.Lanes.{LaneRan, post_view};
ghost use Rattle.sat_sessions.specs.Sessions;

use crate::serving::session;
use crate::told::{BookPass, Session, SessionEnd, SessionWorked};
use order_limits::Keys;
use sat_base::{Came, Clock, Gate, Keeper, Lane, Words};
use sat_book::Book;
use std::alloc::Global;
use std::sync::Wait;
use turnstile::Desk;

/// What the worker of a lane has: its connections, a clock and a source of random words.
#[derive(Drop)]
pub struct Post<L, T, W> {
    pub lane: L,
    pub clock: T,
    pub words: W,
}

/// Why the worker of a lane ended.
#[derive(Clone, Copy)]
pub enum LaneEnd {
    /// No connection will come any more.
    Over,
    /// A wait for a connection failed, and the lane counted it.
    Failed,
    /// The machine stopped at its last session, or had stopped before.
    Stopped,
    /// Its last session met the full term.
    TermFull,
    /// It had 65536 sessions.
    Many,
    /// There was no memory for the next session, and no connection was taken for it.
    NoMemory,
}

/// What the worker of a lane leaves.
#[derive(Drop)]
pub struct LaneWorked<K, L, T, W> {
    pub pass: BookPass<K>,
    pub post: Post<L, T, W>,
    pub sessions: Vec<Session>,
    pub end: LaneEnd,
}

/// The most sessions of a lane.
pub const SESSIONS: usize = 65_536;

// Whether a session met the full term.
fn is_full(end: SessionEnd) -> bool
    ensures { result ≡ Sessions.is_full end }
{
    matches!(end, SessionEnd::TermFull { .. })
}

// Serves the connections of a lane, one after another, and gives each back. The room for a session is made before its
// connection is taken.
fn serve_lane<K: Keeper, L: Lane, T: Clock, W: Words, G: Gate, R: Wait>(
    rt: &R,
    alloc: Global,
    desk: &Desk<Book<K>>,
    pass: BookPass<K>,
    keys: &Keys,
    post: Post<L, T, W>,
    gate: &G,
    lane: u16,
) -> LaneWorked<K, L, T, W>
    requires desk { pass.desk ≡ desk.now }
    requires base { IsSome pass.base }
    ensures { LaneRan keys.now desk.now.term (post_view L.about T.coming W.left W.faults post) pass result.sessions.items result.end
        (post_view L.about T.coming W.left W.faults result.post) result.pass }
{
    let mut pass = pass;
    let mut post = post;
    let mut sessions = Vec::new(alloc);
    for number in 0..SESSIONS as u64 {
        if sessions.reserve(1).is_err() {
            return LaneWorked {
                pass,
                post,
                sessions,
                end: LaneEnd::NoMemory,
            };
        }
        let mut link = match post.lane.next() {
            Came::Conn(link) => link,
            Came::Ended => return LaneWorked {
                pass,
                post,
                sessions,
                end: LaneEnd::Over,
            },
            Came::Failed => return LaneWorked {
                pass,
                post,
                sessions,
                end: LaneEnd::Failed,
            },
        };
        let SessionWorked {
            pass: after,
            session: served,
            stops,
        } = session(
            rt,
            alloc,
            desk,
            pass,
            keys,
            &mut link,
            &mut post.clock,
            &mut post.words,
            gate,
            lane,
            number,
        );
        post.lane.back(link);
        pass = after;
        sessions.push_reserved(served);
        if stops {
            return LaneWorked {
                pass,
                post,
                sessions,
                end: LaneEnd::Stopped,
            };
        }
        if is_full(served.end) {
            return LaneWorked {
                pass,
                post,
                sessions,
                end: LaneEnd::TermFull,
            };
        }
    }
    LaneWorked {
        pass,
        post,
        sessions,
        end: LaneEnd::Many,
    }
}

/// Serves the connections of a lane, one after another, gives each back, and shuts the lane behind the last. The room for a
/// session is made before its connection is taken. `lane` is the lane's number, for the gate.
pub fn lane_worker<K: Keeper, L: Lane, T: Clock, W: Words, G: Gate, R: Wait>(
    rt: &R,
    alloc: Global,
    desk: &Desk<Book<K>>,
    pass: BookPass<K>,
    keys: &Keys,
    post: Post<L, T, W>,
    gate: &G,
    lane: u16,
) -> LaneWorked<K, L, T, W>
    requires desk { pass.desk ≡ desk.now }
    requires base { IsSome pass.base }
    ensures { LaneRan keys.now desk.now.term (post_view L.about T.coming W.left W.faults post) pass result.sessions.items result.end
        (post_view L.about T.coming W.left W.faults result.post) result.pass }
{
    let mut worked = serve_lane(rt, alloc, desk, pass, keys, post, gate, lane);
    let is_stopped = matches!(worked.end, LaneEnd::Stopped);
    worked.post.lane.shut(is_stopped);
    worked
}

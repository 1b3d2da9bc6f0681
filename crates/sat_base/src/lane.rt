// Lanes of connections.
ghost use Rattle.std.specs.Prelude.{◌≡◌};
ghost use Rattle.sat_base.specs.Lane.{LaneView, Nexts, SomeIsOut, got_back};

use crate::Link;

/// What a lane answers to the wait for a connection.
#[derive(Drop)]
pub enum Came<C> {
    /// One came.
    Conn(C),
    /// None will come any more.
    Ended,
    /// The wait failed.
    Failed,
}

/// Connections, one after another, each of which is given back once it was served. A real lane tells nothing of what
/// they carried.
pub trait Lane: Drop + Send {
    type Conn: Link + Send;

    /// The connections that were handed out and taken back, where it tells; how many were handed out; whether none will
    /// come any more, which stays so; and how many waits have failed. Both counts go up to 2^64 - 1.
    ghost about: { Self → LaneView };

    /// Waits for the next connection. Only a wait that failed raises the count of faults, by one.
    fn next(&mut self) -> Came<Self::Conn>
        ensures { Nexts Self.Conn.about (about self.old) result (about self.new) };

    /// Takes back one that it handed out.
    fn back(&mut self, conn: Self::Conn)
        requires { SomeIsOut (about self.old).links }
        ensures { about self.new ≡ got_back (about self.old) (Self.Conn.about conn) };

    /// Takes no connection any more, so that clients needn't wait. `is_stopped` says that the machine has stopped: what nodes
    /// are still asked counts for nothing then.
    fn shut(&mut self, is_stopped: bool)
        ensures { about self.new ≡ about self.old };
}

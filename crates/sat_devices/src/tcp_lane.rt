// A lane of connections over TCP.
ghost use Rattle.std.specs.Prelude.{◌≡◌, ◌<◌, IfOk, false};
ghost use Rattle.sat_base.specs.Lane.{Nexts, SomeIsOut, got_back};
ghost use Rattle.sat_devices.specs.Faults.{device_about};
ghost use Rattle.sat_devices.specs.Waits.{AtPort, lane_about};

use crate::TcpLink;
use crate::front::Front;
use crate::room::Room;
use mio::net::TcpListener;
use sat_base::{Came, Lane, Service};
use std::io;
use std::marker::Model;
use std::net::{Ipv4Addr, Net, SocketAddr, SocketAddrV4};
use std::time::Clock;

/// The connections that come to a port of 127.0.0.1, or of another address, one at a time, each once its request is decided or
/// its client sends no more. Contracts see the port, how many were handed out, and how many waits have failed, both up to
/// 2^64 - 1, and whether none comes any more.
///
/// Once a wait has failed, its service is over, or it was shut, it listens no more, so that clients are refused, and no
/// connection comes.
#[derive(Drop)]
pub struct TcpLane<R: Clock + Copy> {
    // Until it listens no more.
    front: Option<Front<R>>,
    service: Option<Service>,
    port: u16,
    given: u64,
    over: bool,
    faults: u64,
}

impl<R: Clock + Copy> Model for TcpLane<R> {
    ghost Value = { AtPort };

    ghost view = { λ l. record { port = l.port; given = l.given; over = l.over; faults = l.faults } };
}

impl<R: Clock + Copy + Net + AllocGlobal> TcpLane<R> {
    /// A lane at this port of 127.0.0.1, or at one that the system picks where it is 0, for requests whose bodies have
    /// fields ([`Room::for_fields`]). An error is the system's, as where another program has the port.
    pub fn listen(rt: R, port: u16) -> io::Result<TcpLane<R>>
        ensures fresh { IfOk result (λ l. (l.given ≡ 0) × (l.over ≡ false) × (l.faults ≡ 0)) }
        ensures port { IfOk result (λ l. 0 < port → l.port ≡ port) }
    {
        TcpLane::listen_with(rt, port, Room::for_fields())
    }

    /// A lane as [`TcpLane::listen`] gives it, with this room.
    pub fn listen_with(rt: R, port: u16, room: Room) -> io::Result<TcpLane<R>>
        ensures fresh { IfOk result (λ l. (l.given ≡ 0) × (l.over ≡ false) × (l.faults ≡ 0)) }
        ensures port { IfOk result (λ l. 0 < port → l.port ≡ port) }
    {
        TcpLane::listen_at(rt, Ipv4Addr::LOCALHOST, port, room)
    }

    /// A lane as [`TcpLane::listen_with`] gives it, at this address of the machine, or at all where it is 0.0.0.0.
    pub fn listen_at(rt: R, addr: Ipv4Addr, port: u16, room: Room) -> io::Result<TcpLane<R>>
        ensures fresh { IfOk result (λ l. (l.given ≡ 0) × (l.over ≡ false) × (l.faults ≡ 0)) }
        ensures port { IfOk result (λ l. 0 < port → l.port ≡ port) }
    {
        let at = SocketAddr::V4(SocketAddrV4::new(addr, port));
        let listener = TcpListener::bind(&rt, at)?;
        let at = if port == 0 {
            listener.local_addr()?.port()
        } else {
            port
        };
        Ok(TcpLane {
            front: Some(Front::new(rt, rt.alloc(), listener, room)?),
            service: None,
            port: at,
            given: 0,
            over: false,
            faults: 0,
        })
    }
}

impl<R: Clock + Copy> TcpLane<R> {
    /// The lane, as one of a service: it ends with it.
    pub fn served(self, service: Service) -> TcpLane<R>
        ensures { result ≡ self }
    {
        service.open_lane();
        TcpLane {
            front: self.front,
            service: Some(service),
            port: self.port,
            given: self.given,
            over: self.over,
            faults: self.faults,
        }
    }

    // Listens no more.
    fn close(&mut self)
        ensures { self.new ≡ self.old }
    {
        let Some(front) = self.front.take() else {
            return;
        };
        front.close();
        if let Some(service) = &self.service {
            service.close_lane();
        }
    }

    /// The port.
    pub fn port(&self) -> u16
        ensures { result ≡ self.now.port }
    {
        self.port
    }

    /// How many waits for a connection have failed, up to 2^64 - 1.
    pub fn faults(&self) -> u64
        ensures { result ≡ self.now.faults }
    {
        self.faults
    }
}

impl<R: Clock + Copy + Send> Lane for TcpLane<R> {
    type Conn = TcpLink<R>;

    ghost about = { lane_about };

    fn next(&mut self) -> Came<TcpLink<R>>
        ensures waits { Nexts device_about (lane_about self.old) result (lane_about self.new) }

        // Beside what every lane promises.
        ensures port { self.new.port ≡ self.old.port }
    {
        if self.over {
            return Came::Ended;
        }
        let came = match &mut self.front {
            Some(front) => front.next(&self.service),
            None => Ok(None),
        };
        match came {
            Ok(Some(link)) => {
                self.given = self.given.saturating_add(1);
                Came::Conn(link)
            }
            Ok(None) => {
                self.over = true;
                self.close();
                Came::Ended
            }
            Err(_) => {
                self.faults = self.faults.saturating_add(1);
                self.close();
                Came::Failed
            }
        }
    }

    fn back(&mut self, conn: TcpLink<R>)
        ensures returned { lane_about self.new ≡ got_back (lane_about self.old) (device_about conn) }
        ensures port { self.new.port ≡ self.old.port }
    {
        if let Some(front) = &mut self.front {
            front.back(conn);
        }
    }

    fn shut(&mut self, is_stopped: bool)
        ensures about { lane_about self.new ≡ lane_about self.old }
        ensures port { self.new.port ≡ self.old.port }
    {
        self.close();
        match &self.service {
            Some(service) if is_stopped => service.stop(),
            _ => {}
        }
    }
}

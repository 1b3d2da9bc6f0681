// What stands in front of a lane: it takes connections and reads their requests side by side, so that no client holds the lane.
use crate::TcpLink;
use crate::guests::Guests;
use crate::luck::{Luck, luck_of};
use crate::room::Room;
use crate::time_limit::TimeLimit;
use mio::event::Events;
use mio::net::TcpListener;
use mio::{Interest, Poll, Token};
use sat_base::Service;
use std::alloc::Global;
use std::io;
use std::io::ErrorKind;
use std::net::Net;
use std::time::{Clock, Duration};

// The token of the port. Each place of a connection has its number and one more.
const PORT: usize = 0;

// How many events are taken at once, and how many connections, before a request is handed out that is ready.
const EVENTS: usize = 1024;

const BURST: u32 = 64;

// After how many seconds it looks again for those whose time is up.
const SWEEP: u64 = 1;

// For how many seconds connections that were served are still written and read once the port is closed.
const LINGER: u64 = 2;

/// The connections that come to a port.
#[derive(Drop)]
pub(crate) struct Front<R: Clock + Copy> {
    rt: R,
    listener: TcpListener,
    poll: Poll,
    events: Events,
    guests: Guests<R>,
    // Whether connections may wait at the port that weren't taken.
    may_wait: bool,
    sweep: TimeLimit,
}

impl<R: Clock + Copy + Net> Front<R> {
    /// A front of a port that is listened to.
    pub(crate) fn new(
        rt: R,
        alloc: Global,
        listener: TcpListener,
        room: Room,
    ) -> io::Result<Front<R>> {
        let poll = Poll::new(&rt)?;
        let mut listener = listener;
        poll.registry()
            .register(&mut listener, Token(PORT), Interest::READABLE)?;
        let Ok(events) = Events::with_capacity(alloc, EVENTS) else {
            return Err(io::Error::from(ErrorKind::OutOfMemory));
        };
        Ok(Front {
            rt,
            listener,
            poll,
            events,
            guests: Guests::new(rt, alloc, room),
            may_wait: true,
            sweep: TimeLimit::after(&rt, SWEEP),
        })
    }
}

// Whether a service is over.
fn is_over(service: &Option<Service>) -> bool {
    match service {
        Some(service) => service.is_over(),
        None => false,
    }
}

impl<R: Clock + Copy> Front<R> {
    /// The next connection whose request is decided, or whose client sends no more. None once the service is over, if there is
    /// one, and an error is the port's.
    pub(crate) fn next(&mut self, service: &Option<Service>) -> io::Result<Option<TcpLink<R>>> {
        for _ in 0..u64::MAX {
            if is_over(service) {
                return Ok(None);
            }
            let link = self.look()?;
            if link.is_some() {
                return Ok(link);
            }
        }
        Ok(None)
    }

    // Takes, reads and writes what can be, within about a second. The next connection whose request is ready, if one is.
    fn look(&mut self) -> io::Result<Option<TcpLink<R>>> {
        let is_drained = !self.may_wait || self.accept()?;
        let seconds = if is_drained && !self.guests.has_ready() {
            SWEEP
        } else {
            0
        };
        self.wait(Duration::from_secs(seconds))?;
        self.sweep();
        Ok(self.guests.hand_out())
    }

    /// Takes back a connection that was handed out.
    pub(crate) fn back(&mut self, link: TcpLink<R>) {
        self.guests.back(link);
    }

    /// Closes the port, so that clients are refused, and lets those go that were served: for two seconds at most they are
    /// written what is left of their answers.
    pub(crate) fn close(self) {
        let Front {
            rt,
            listener,
            poll,
            events,
            guests,
            may_wait: _,
            sweep: _,
        } = self;
        drop(listener);
        let (mut poll, mut events, mut guests) = (poll, events, guests);
        let limit = TimeLimit::after(&rt, LINGER);
        for _ in 0..u64::MAX {
            let Some(left) = limit.left(&rt, LINGER) else {
                return;
            };
            if !guests.are_leaving() || poll.poll(&mut events, Some(left)).is_err() {
                return;
            }
            for event in events.iter() {
                let Token(token) = event.token();
                guests.look(token.saturating_sub(1));
            }
        }
    }

    // Waits until something comes, for so long at most, and reads and writes what can be.
    fn wait(&mut self, most: Duration) -> io::Result<()> {
        match self.poll.poll(&mut self.events, Some(most)) {
            Ok(()) => {}
            Err(e) if luck_of(&e) == Luck::Passing => return Ok(()),
            Err(e) => return Err(e),
        }
        for event in self.events.iter() {
            let Token(token) = event.token();
            match token.checked_sub(1) {
                Some(place) => self.guests.look(place),
                None => self.may_wait = true,
            }
        }
        Ok(())
    }

    // Takes the connections that wait at the port. True where no more can be taken at once.
    fn accept(&mut self) -> io::Result<bool> {
        for _ in 0..BURST {
            match self.listener.accept() {
                Ok((stream, _)) => self.guests.admit(self.poll.registry(), stream),
                Err(e) => match luck_of(&e) {
                    Luck::None => {
                        self.may_wait = false;
                        return Ok(true);
                    }
                    Luck::Passing => {}
                    Luck::Scarce if self.guests.send_away().is_some() => {}
                    Luck::Scarce | Luck::Later => return Ok(true),
                    Luck::Broken => return Err(e),
                },
            }
        }
        Ok(false)
    }

    // Closes those whose time is up.
    fn sweep(&mut self) {
        if self.sweep.is_up(&self.rt) {
            self.guests.sweep();
            self.sweep = TimeLimit::after(&self.rt, SWEEP);
        }
    }
}

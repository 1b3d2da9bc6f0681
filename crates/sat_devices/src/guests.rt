// The connections of a port, each in a place of its own.
use crate::TcpLink;
use crate::arriving::{Arriving, Progress};
use crate::leaving::Leaving;
use crate::room::Room;
use mio::net::TcpStream;
use mio::{Interest, Registry, Token};
use std::alloc::Global;
use std::collections::VecDeque;
use std::mem;
use std::time::Clock;

// How many connections a port holds. Where one more comes, the oldest one whose request isn't whole makes room.
const MOST: usize = 4096;

// Who is at a place.
#[derive(Drop)]
enum Guest {
    Nobody,
    Arriving(Arriving),
    // Its request is ready, and it is to be handed out.
    Ready(Arriving),
    // It is handed out.
    Away,
    Leaving(Leaving),
}

/// The connections of a port.
#[derive(Drop)]
pub(crate) struct Guests<R: Clock + Copy> {
    rt: R,
    alloc: Global,
    room: Room,
    places: Vec<Guest>,
    // How many bytes they hold.
    held: usize,
    // The places of those whose requests are ready, in their order.
    ready: VecDeque<usize>,
    // How many came.
    came: u64,
}

impl<R: Clock + Copy> Guests<R> {
    /// None.
    pub(crate) fn new(rt: R, alloc: Global, room: Room) -> Guests<R> {
        Guests {
            rt,
            alloc,
            room,
            places: Vec::new(alloc),
            held: 0,
            ready: VecDeque::new(alloc),
            came: 0,
        }
    }

    // Puts a guest at a place, for the one who was there.
    fn put(&mut self, place: usize, guest: Guest) -> Guest {
        let came = held_by(&guest);
        let before = match self.places.get_mut(place) {
            Some(at) => mem::replace(at, guest),
            None => return Guest::Nobody,
        };
        self.held = self
            .held
            .saturating_sub(held_by(&before))
            .saturating_add(came);
        before
    }

    /// Whether a request is ready.
    pub(crate) fn has_ready(&self) -> bool {
        !self.ready.is_empty()
    }

    /// Whether some connection was served and isn't closed.
    pub(crate) fn are_leaving(&self) -> bool {
        self.places
            .iter()
            .any(|guest| matches!(guest, Guest::Leaving(_)))
    }

    /// The next connection whose request is ready.
    pub(crate) fn hand_out(&mut self) -> Option<TcpLink<R>> {
        let place = self.ready.pop_front()?;
        match self.put(place, Guest::Away) {
            Guest::Ready(guest) => Some(TcpLink::of(
                self.rt,
                self.alloc,
                place,
                guest,
                self.room.answer,
            )),
            other => {
                self.put(place, other);
                None
            }
        }
    }

    // A place where nobody is.
    fn free_place(&mut self) -> Option<usize> {
        let free = self
            .places
            .iter()
            .position(|guest| matches!(guest, Guest::Nobody));
        if free.is_some() {
            return free;
        }
        if self.places.len() >= MOST {
            return self.send_away();
        }
        self.places.push(Guest::Nobody).ok()?;
        self.places.len().checked_sub(1)
    }

    /// Closes the connection that came first of those whose requests aren't whole, and tells its place.
    pub(crate) fn send_away(&mut self) -> Option<usize> {
        let mut oldest = None;
        for (place, guest) in self.places.iter().enumerate() {
            if let Guest::Arriving(guest) = guest {
                let is_older = match oldest {
                    Some((_, number)) => guest.number < number,
                    None => true,
                };
                if is_older {
                    oldest = Some((place, guest.number));
                }
            }
        }
        let (place, _) = oldest?;
        self.put(place, Guest::Nobody);
        Some(place)
    }

    /// Takes in a connection. Where there is no place or no memory for it, it is closed.
    pub(crate) fn admit(&mut self, registry: &Registry, stream: TcpStream) {
        let Some(place) = self.free_place() else {
            return;
        };
        let mut stream = stream;
        let interest = Interest::READABLE | Interest::WRITABLE;
        let token = Token(place.saturating_add(1));
        if registry.register(&mut stream, token, interest).is_err() {
            return;
        }
        self.came = self.came.saturating_add(1);
        let guest = Arriving::new(&self.rt, self.alloc, stream, self.came);
        self.put(place, Guest::Arriving(guest));
        self.look(place);
    }

    /// Reads and writes what can be at a place.
    pub(crate) fn look(&mut self, place: usize) {
        let next = match self.put(place, Guest::Nobody) {
            Guest::Arriving(guest) => self.looked(place, guest),
            Guest::Leaving(guest) => go_on(&self.rt, guest),
            other => other,
        };
        self.settle(place, next);
    }

    // Puts a guest back to its place. Where all hold too much then, those make room that came first and whose requests
    // aren't whole.
    fn settle(&mut self, place: usize, guest: Guest) {
        self.put(place, guest);
        for _ in 0..self.places.len() {
            if self.held <= self.room.all || self.send_away().is_none() {
                return;
            }
        }
    }

    // A connection after what has come of its request was read.
    fn looked(&mut self, place: usize, guest: Arriving) -> Guest {
        let mut guest = guest;
        match guest.take(&self.rt, self.room.body) {
            Progress::Comes => Guest::Arriving(guest),
            Progress::Ready if self.ready.push_back(place).is_ok() => Guest::Ready(guest),
            Progress::Ready | Progress::Lost => Guest::Nobody,
        }
    }

    /// Takes back a connection that was handed out.
    pub(crate) fn back(&mut self, link: TcpLink<R>) {
        let (place, guest) = link.leaving();
        let next = go_on(&self.rt, guest);
        self.settle(place, next);
    }

    /// Looks for those whose time is up: one whose head is whole is ready, and the others are closed.
    pub(crate) fn sweep(&mut self) {
        for place in 0..self.places.len() {
            let next = match self.put(place, Guest::Nobody) {
                Guest::Arriving(guest) => self.waited(place, guest),
                Guest::Leaving(guest) => lingered(&self.rt, guest),
                other => other,
            };
            self.put(place, next);
        }
    }

    // A connection whose request may take too long.
    fn waited(&mut self, place: usize, guest: Arriving) -> Guest {
        if !guest.is_late(&self.rt) {
            return Guest::Arriving(guest);
        }
        if guest.has_head() && self.ready.push_back(place).is_ok() {
            return Guest::Ready(guest);
        }
        Guest::Nobody
    }
}

// How many bytes a guest holds.
fn held_by(guest: &Guest) -> usize {
    match guest {
        Guest::Arriving(guest) | Guest::Ready(guest) => guest.request.len(),
        Guest::Leaving(guest) => guest.held(),
        Guest::Nobody | Guest::Away => 0,
    }
}

// A connection that was served, and may take too long to close.
fn lingered<R: Clock>(rt: &R, guest: Leaving) -> Guest {
    if guest.is_late(rt) {
        return Guest::Nobody;
    }
    Guest::Leaving(guest)
}

// A connection that was served, after what can be was written and read.
fn go_on<R: Clock>(rt: &R, guest: Leaving) -> Guest {
    let mut guest = guest;
    if guest.go_on(rt) {
        return Guest::Nobody;
    }
    Guest::Leaving(guest)
}

//! The door: a listener, at a counter another one, and at most 64 clients, with a few beyond them.

ghost use Rattle.std.specs.Prelude.{◌≡◌, ◌+◌, ◌≤◌, true, vec_len, ℕ};
ghost use Rattle.bx_office_door.specs.Guests.{numbers_of, are_given, kept_of};
ghost use Rattle.bx_office_door.specs.declared.door.TheConstants.{MAX_GUESTS, SPARE, MAX_KEPT};

use crate::customer::Customer;
use crate::eves::eve_at;
use crate::guest::Guest;
use crate::stream::{Listening, Stream, Unmet};
use bx_office::{Address, Client, Place, Reply, Route, Side, Stage};
use std::alloc::Global;
use std::mem;

/// The places. Whoever comes beyond them is told when to ask again.
const MAX_GUESTS: usize = 64;

/// How many may come beyond them at a time, of whom each is let to ask for what a monitor asks for; others wait in the queue of the listener.
const SPARE: usize = 4;

/// So many places customers take at most: the others are left for operators.
const MAX_CUSTOMERS: usize = 48;

/// The most octets of all bodies together: 32 MiB.
const MAX_KEPT: usize = 33_554_432;

/// A listener, and where it is.
#[derive(Drop)]
pub struct Entrance {
    pub address: Address,
    pub listening: Listening,
}

/// The listener of an office, and that of its counter where it has one, with their clients, each of which has a number that no other one is ever given. Nothing here ever waits.
#[derive(Drop)]
pub struct Door {
    alloc: Global,
    office: Entrance,
    counter: Option<Entrance>,
    guests: Vec<Guest>,
    /// How many were let in.
    count: u64,
    /// Whether no file descriptor was left for whoever waits, since that was asked last.
    has_lacked: bool,
    /// How many requests were answered.
    answers: u64,
    /// What the clock showed last, in nanoseconds.
    shown: u128,
    /// Whether the other end of the line was heard of late then.
    is_heard: bool,
    /// When the day begins, in nanoseconds since 1970.
    opens: u128,
    /// The figures that are told until then, where memory was had for them.
    figures: Option<Vec<u8>>,
    ghost few: { vec_len guests ≤ MAX_GUESTS + SPARE },
    ghost kept: { kept_of guests.items ≤ MAX_KEPT },
    ghost given: { are_given count (numbers_of guests.items) ≡ true },
}

impl Door {
    ghost use Rattle.std.specs.Prelude.{◌++◌, ◌-◌, ◌<◌, [], false, None, Some, IfSome, MatchOption, filter, not, if◌then◌else◌, slice_index_or};
    ghost use Rattle.bx_office_door.specs.Guests.{first_asked, client_of, given_since, IsAnsweredThere, IsLookedFor};
    ghost use Rattle.bx_office_door.specs.Places.{IsFirstGuest};
    ghost use Rattle.bx_office_door.specs.declared.guest.Guest.{Guest};
    ghost use Rattle.bx_office_door.specs.Doors.{answers_after, guests_of, is_early, IsAttended, IsStill};
    ghost use Rattle.bx_office_door.specs.Entering.{IsEntrance, AreLetIn, room_on, are_places_taken};

    /// A door where nobody stands yet, of a day that begins then, in nanoseconds since 1970.
    pub fn new(alloc: Global, office: Entrance, counter: Option<Entrance>, opens: u128) -> Door
        ensures nobody { guests_of result ≡ [] }
        ensures entrances { (result.office ≡ office) × (result.counter ≡ counter) }
        ensures opens { result.opens ≡ opens }
        ensures figures { result.figures ≡ None }
        ensures lacked { result.has_lacked ≡ false }
        ensures counts { (result.count ≡ 0) × (result.answers ≡ 0) × (result.shown ≡ 0) }
        ensures heard { result.is_heard ≡ false }
    {
        Door {
            alloc,
            office,
            counter,
            guests: Vec::new(alloc),
            count: 0,
            has_lacked: false,
            answers: 0,
            shown: 0,
            is_heard: false,
            opens,
            figures: None,
        }
    }

    /// Who waits on this side, and where it has come in.
    fn next_on(&mut self, side: Side) -> Option<(Place, Stream)>
        ensures entered { IfSome result (λ came. IsEntrance self.old came.0) }
        ensures side { IfSome result (λ came. came.0.side ≡ side) }
        ensures rest { self.new ≡ record self.old { has_lacked = self.new.has_lacked } }
    {
        let (address, accepted) = match (side, &self.counter) {
            (Side::Operators, _) => (self.office.address, self.office.listening.accept()),
            (Side::Customers, Some(counter)) => (counter.address, counter.listening.accept()),
            (Side::Customers, None) => return None,
        };
        match accepted {
            Ok(stream) => Some((Place { address, side }, stream)),
            Err(unmet) => {
                self.has_lacked = self.has_lacked || unmet == Unmet::NoDescriptor;
                None
            }
        }
    }

    /// Who waits where there is room for it: for operators at the places, and a few beyond them, and else for customers at theirs.
    fn next_in(&mut self) -> Option<(Place, Stream)>
        ensures entered { IfSome result (λ came. IsEntrance self.old came.0) }
        ensures room { IfSome result (λ came. vec_len self.old.guests < room_on came.0.side) }
        ensures rest { self.new ≡ record self.old { has_lacked = self.new.has_lacked } }
    {
        let count = self.guests.len();
        if count < MAX_GUESTS + SPARE {
            if let Some(came) = self.next_on(Side::Operators) {
                return Some(came);
            }
        }
        if count < MAX_CUSTOMERS {
            return self.next_on(Side::Customers);
        }
        None
    }

    /// Lets in who waits, while there is room and there are numbers.
    fn let_in(&mut self, now: u128)
        ensures entered { AreLetIn self.old self.new }
        ensures count { self.old.count ≤ self.new.count }
        ensures numbers { numbers_of (guests_of self.new) ≡ numbers_of (guests_of self.old) ++ given_since self.old.count self.new.count }
        ensures others { IsStill self.old self.new }
    {
        for _guest in 0..MAX_GUESTS {
            let is_spare = self.guests.len() >= MAX_GUESTS;
            let Some(number) = self.count.checked_add(1) else {
                return;
            };
            let Some((place, stream)) = self.next_in() else {
                return;
            };
            let guest = Guest::new(self.alloc, place, number, stream, now, is_spare);
            if self.guests.push(guest).is_err() {
                return;
            }
            self.count = number;
        }
    }

    /// How many octets are kept for all bodies.
    fn kept(&self) -> usize
        ensures { result ≡ kept_of (guests_of self.now) }
    {
        let mut sum = 0usize;
        for guest in &self.guests {
            sum += guest.client().kept();
        }
        sum
    }

    /// How many octets may be kept for the body of the client at this index, beside those of the others.
    fn free_at(&self, index: usize) -> usize
        requires { index < vec_len self.now.guests }
        ensures { (g : Guest) → result ≡ MAX_KEPT - (kept_of (guests_of self.now) - (slice_index_or (guests_of self.now) index g).client.kept) }
    {
        let others = self
            .kept()
            .saturating_sub(self.guests[index].client().kept());
        MAX_KEPT.saturating_sub(others)
    }

    /// Whether all places of this side are taken, so that others may wait there.
    fn are_places_taken(&self, side: Side) -> bool
        ensures { result ≡ are_places_taken side (vec_len self.now.guests) }
    {
        match side {
            Side::Operators => self.guests.len() > MAX_GUESTS,
            Side::Customers => self.guests.len() >= MAX_CUSTOMERS,
        }
    }

    /// Moves what is ready of each client. Before the day begins nobody waits for an answer after it.
    fn go_on(&mut self, now: u128)
        ensures early { now < self.old.opens → first_asked (guests_of self.new) ≡ None }
        ensures count { self.new.count ≡ self.old.count }
        ensures numbers { numbers_of (guests_of self.new) ≡ numbers_of (guests_of self.old) }
        ensures others { IsStill self.old self.new }
    {
        for index in 0..self.guests.len() {
            let is_full = self.are_places_taken(self.guests[index].client().side());
            let free = self.free_at(index);
            let eve = eve_at(self.opens, now, self.is_heard, &self.figures);
            self.guests[index].attend(now, is_full, free, eve);
        }
    }

    /// Sends away who is gone.
    fn let_out(&mut self)
        ensures count { self.new.count ≡ self.old.count }
        ensures stay { guests_of self.new ≡ filter (λ guest. not guest.is_gone) (guests_of self.old) }
        ensures others { IsStill self.old self.new }
    {
        self.guests.retain(|guest| !guest.is_gone());
    }

    /// Moves what is ready, and never waits: `now` is what the clock shows, in nanoseconds. Who comes stands after the others. Before the day
    /// begins whoever asks is answered at once (`at_once`), and told whether the other end of the line was heard of late.
    pub fn attend(&mut self, now: u128, is_heard: bool)
        ensures { IsAttended now is_heard self.old self.new }
    {
        self.shown = now;
        self.is_heard = is_heard;
        self.let_in(now);
        self.go_on(now);
        self.let_out();
    }

    /// Whether the day has not begun by what the clock showed last.
    pub fn is_early(&self) -> bool
        ensures { result ≡ is_early self.now }
    {
        self.opens > self.shown
    }

    /// Keeps the figures that are told before the day begins.
    pub fn keep_figures(&mut self, figures: Option<Vec<u8>>)
        ensures { self.new ≡ record self.old { figures = figures } }
    {
        self.figures = figures;
    }

    /// Whether no file descriptor was left for whoever waits, since this was asked last.
    pub fn take_lack(&mut self) -> bool
        ensures value { result ≡ self.old.has_lacked }
        ensures rest { self.new ≡ record self.old { has_lacked = false } }
    {
        mem::replace(&mut self.has_lacked, false)
    }

    /// What the clock showed when the door was attended last, in nanoseconds; 0 before.
    pub fn shown(&self) -> u128
        ensures { result ≡ self.now.shown }
    {
        self.shown
    }

    /// How many requests were answered here: those for the page and its parts, which need no answer of the day, are not among them.
    pub fn answers(&self) -> u64
        ensures { result ≡ self.now.answers }
    {
        self.answers
    }

    /// The first client whose request waits for its answer: its number, and what it asks for.
    pub fn asked(&self) -> Option<(u64, Route)>
        ensures { result ≡ first_asked (guests_of self.now) }
    {
        for guest in &self.guests {
            if let Stage::Asked(route) = guest.client().stage() {
                return Some((guest.number(), route));
            }
        }
        None
    }

    /// The client of this number, where it is there.
    pub fn client(&self, number: u64) -> Option<&Client>
        ensures { MatchOption result (client_of number (guests_of self.now) ≡ None) (λ client. client_of number (guests_of self.now) ≡ Some client.now) }
    {
        for guest in &self.guests {
            if guest.number() == number {
                return Some(guest.client());
            }
        }
        None
    }

    /// Where the client of this number stands.
    fn place_of(&self, number: u64) -> Option<usize>
        ensures { MatchOption result (client_of number (guests_of self.now) ≡ None) (IsFirstGuest number (guests_of self.now)) }
    {
        for index in 0..self.guests.len() {
            if self.guests[index].number() == number {
                return Some(index);
            }
        }
        None
    }

    /// Looks at the socket of the client of this number, just before something is sold to it: the customer, where it is there and its side of the
    /// connection is open. One that has hung up is sent away without an answer, and all others stand as they stood.
    pub fn customer(&mut self, number: u64) -> Option<Customer>
        ensures looked { IsLookedFor number (guests_of self.old) (guests_of self.new) result }
        ensures count { self.new.count ≡ self.old.count }
        ensures others { IsStill self.old self.new }
    {
        let index = self.place_of(number)?;
        if self.guests[index].has_hung_up() {
            let _gone = self.guests.remove(index);
            return None;
        }
        Some(Customer::new(number))
    }

    /// Answers just the client of this number, where it is there. It stands after the others then.
    pub fn answer(&mut self, number: u64, reply: Reply<'_>)
        ensures answered { IsAnsweredThere number reply.entry (guests_of self.old) (guests_of self.new) }
        ensures answers { self.new.answers ≡ answers_after number self.old }
        ensures count { self.new.count ≡ self.old.count }
        ensures shown { (self.new.shown ≡ self.old.shown) × (self.new.is_heard ≡ self.old.is_heard) }
        ensures opens { (self.new.opens ≡ self.old.opens) × (self.new.figures ≡ self.old.figures) }
    {
        let Some(index) = self.place_of(number) else {
            return;
        };
        self.answers = self.answers.saturating_add(1);
        let mut guest = self.guests.remove(index);
        guest.answer(reply);
        match self.guests.push(guest) {
            Ok(()) => {}
            Err(_) => unreachable!(),
        }
    }
}

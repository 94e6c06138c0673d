//! A client at the door.

ghost use Rattle.std.specs.Prelude.{◌≡◌, ◌≤◌, max, true, false, Some, length, is_some};
ghost use Rattle.bx_office_door.specs.Guests.{IsGuestTold};
ghost use Rattle.bx_office_door.specs.Guesting.{HasHeard, HasSent, IsToldHere};
ghost use Rattle.bx_office_door.specs.Patience.{patience_of, is_out_of_time, may_stand, is_watched, StaysQuiet};
ghost use Rattle.bx_office_door.specs.Waiting.{waits_for_answer};

use crate::stream::{Came, Stream};
use bx_office::{Client, Eve, Place, Reply, Route, Stage, at_once, crowded, too_slow};
use std::alloc::Global;

/// How long a request takes at most, and how long the next one is waited for: 10 seconds, in nanoseconds.
const PATIENCE: u128 = 10_000_000_000;

/// How long a client may send and take nothing where others wait, and how long one has that came beyond the places: a second.
const BRIEF: u128 = 1_000_000_000;

/// How many octets of a body give it a second more.
const BODY_A_SECOND: usize = 16_384;

/// A second, in nanoseconds.
const SECOND: u128 = 1_000_000_000;

/// How many octets are thrown away at a time, at most.
const DRAINED: usize = 4096;

/// How often is read and written at a time, at most, and how many things are read of what came.
const TURNS: u32 = 64;

const STEPS: u32 = 4096;

/// A client with its socket.
#[derive(Drop)]
pub struct Guest {
    number: u64,
    stream: Stream,
    client: Client,
    /// When it came, was sent its last answer, or began its request, in nanoseconds; not known yet where it was just answered.
    since: Option<u128>,
    /// When an octet came from it or went to it last, in nanoseconds.
    heard: u128,
    /// It came beyond the places, and is let to ask for nothing but what a monitor asks for.
    is_spare: bool,
    /// Nothing more is sent: what still comes is thrown away, so that the answer is not lost with it.
    is_shut: bool,
    is_gone: bool,
}

impl Guest {
    /// A client that came now: to a place, or beyond the places.
    pub fn new(
        alloc: Global,
        place: Place,
        number: u64,
        stream: Stream,
        now: u128,
        is_spare: bool,
    ) -> Guest
        ensures number { result.number ≡ number }
        ensures spare { result.is_spare ≡ is_spare }
        ensures kept { result.client.kept ≡ 0 }
        ensures place { result.client.place ≡ place }
        ensures stage { result.client.stage ≡ Stage.Head }
        ensures stays { (result.is_shut ≡ false) × (result.is_gone ≡ false) }
        ensures since { result.since ≡ Some now }
    {
        Guest {
            number,
            stream,
            client: Client::new(alloc, place),
            since: Some(now),
            heard: now,
            is_spare,
            is_shut: false,
            is_gone: false,
        }
    }

    /// Which one it is.
    pub fn number(&self) -> u64
        ensures { result ≡ self.now.number }
    {
        self.number
    }

    /// Whether the socket can be closed.
    pub fn is_gone(&self) -> bool
        ensures { result ≡ self.now.is_gone }
    {
        self.is_gone
    }

    /// Whether it has hung up: its side of the connection is closed.
    pub fn has_hung_up(&self) -> bool {
        self.stream.has_closed()
    }

    /// The client.
    pub fn client(&self) -> &Client
        ensures { result.now ≡ self.now.client }
    {
        &self.client
    }

    /// Answers its request. However long that has waited, there is time to send the answer.
    pub fn answer(&mut self, reply: Reply<'_>)
        ensures { IsGuestTold reply.entry self.old self.new }
    {
        self.client.answer(reply);
        self.since = None;
    }

    /// Reads once. Answers whether something came. With its first octet a request has its time before it.
    fn read(&mut self, now: u128) -> bool
        ensures heard { HasHeard self.old self.new }
        ensures quiet { StaysQuiet self.old self.new }
        ensures number { self.new.number ≡ self.old.number }
        ensures kept { self.new.client.kept ≤ self.old.client.kept }
    {
        let most = self.client.room();
        if most == 0 {
            return false;
        }
        match self.stream.receive(most) {
            Came::Nothing => false,
            Came::Octets(_) => {
                if self.client.is_between() {
                    self.since = Some(now);
                }
                self.client.take(self.stream.octets());
                self.heard = now;
                true
            }
            Came::End => {
                self.client.end();
                true
            }
        }
    }

    /// Answers what needs nothing of the day, and before it begins all else; and who came beyond the places, and asks for what is not for a
    /// monitor, by when to ask again.
    fn reply(&mut self, eve: Option<Eve<'_>>)
        ensures told { IsToldHere eve.entry self.old.is_spare self.old.client self.new.client }
        ensures early { is_some eve.entry ≡ true → waits_for_answer self.new.client.stage ≡ false }
        ensures number { self.new.number ≡ self.old.number }
        ensures spare { may_stand self.new.is_spare self.new.client.stage ≡ true }
        ensures kept { self.new.client.kept ≤ self.old.client.kept }
    {
        let stage = self.client.stage();
        if !may_stand(self.is_spare, stage) {
            return self.client.dismiss(crowded());
        }
        if let Stage::Asked(route) = stage
            && let Some(reply) = at_once(self.client.side(), route, eve)
        {
            self.client.answer(reply);
        }
    }

    /// Reads on in what came: of a body as many octets may be kept as are free.
    fn advance(&mut self, free: usize, eve: Option<Eve<'_>>)
        ensures early { is_some eve.entry ≡ true → waits_for_answer self.new.client.stage ≡ false }
        ensures number { self.new.number ≡ self.old.number }
        ensures spare { may_stand self.new.is_spare self.new.client.stage ≡ true }
        ensures kept { self.new.client.kept ≤ max self.old.client.kept free }
    {
        for _step in 0..STEPS {
            if !self.client.step(free) {
                break;
            }
        }
        self.reply(eve);
    }

    /// Writes once. Answers whether something went.
    fn write(&mut self, now: u128) -> bool
        ensures sent { HasSent self.old self.new }
        ensures quiet { StaysQuiet self.old self.new }
        ensures number { self.new.number ≡ self.old.number }
        ensures kept { self.new.client.kept ≤ self.old.client.kept }
    {
        if self.client.pending().is_empty() {
            return false;
        }
        match self.stream.send(self.client.pending()) {
            Came::Nothing => false,
            Came::Octets(count) => {
                self.client.sent(count);
                self.heard = now;
                if self.client.pending().is_empty() {
                    self.since = Some(now);
                }
                true
            }
            Came::End => {
                self.is_gone = true;
                false
            }
        }
    }

    /// Throws away what still comes after the last answer. Answers whether something came.
    fn drain(&mut self) -> bool
        ensures client { self.new.client ≡ self.old.client }
        ensures quiet { StaysQuiet self.old self.new }
        ensures number { self.new.number ≡ self.old.number }
        ensures kept { self.new.client.kept ≤ self.old.client.kept }
    {
        if !self.is_shut {
            self.stream.shut();
            self.is_shut = true;
        }
        match self.stream.receive(DRAINED) {
            Came::Nothing => false,
            Came::Octets(_) => true,
            Came::End => {
                self.is_gone = true;
                false
            }
        }
    }

    /// Moves once what is ready.
    fn turn(&mut self, now: u128, free: usize, eve: Option<Eve<'_>>) -> bool
        ensures early { is_some eve.entry ≡ true → StaysQuiet self.old self.new }
        ensures number { self.new.number ≡ self.old.number }
        ensures kept { self.new.client.kept ≤ max self.old.client.kept free }
    {
        if self.client.is_over() {
            return self.drain();
        }
        let has_read = self.read(now);
        self.advance(free, eve);
        let has_written = self.write(now);
        has_read || has_written
    }

    /// How long it has: a body has a second more for so many octets of it.
    fn patience(&self) -> u128
        ensures { result ≡ patience_of self.now.is_spare (length self.now.client.body.items) }
    {
        if self.is_spare {
            return BRIEF;
        }
        let octets = self.client.body().len() / BODY_A_SECOND;
        PATIENCE + octets as u128 * SECOND
    }

    /// Whether its time is over, where others wait, or where none do. A request that waits for its answer has time.
    fn is_late(&self, now: u128, is_full: bool) -> bool
        ensures { result ≡ is_out_of_time now is_full self.now }
    {
        match self.since {
            Some(since) => {
                !matches!(self.client.stage(), Stage::Asked(_))
                    && (now.saturating_sub(since) > self.patience()
                        || (is_full && now.saturating_sub(self.heard) > BRIEF))
            }
            None => false,
        }
    }

    /// Gives the client up. Where the rest of a body is due it is told so, and has the time to read that.
    fn give_up(&mut self, now: u128)
        ensures quiet { StaysQuiet self.old self.new }
        ensures number { self.new.number ≡ self.old.number }
        ensures kept { self.new.client.kept ≤ self.old.client.kept }
    {
        if let Stage::Body(_) = self.client.stage() {
            self.client.dismiss(too_slow());
            self.since = Some(now);
            return;
        }
        self.is_gone = true;
    }

    /// Moves what is ready, as often as something is.
    fn go_on(&mut self, now: u128, free: usize, eve: Option<Eve<'_>>)
        ensures early { is_some eve.entry ≡ true → StaysQuiet self.old self.new }
        ensures number { self.new.number ≡ self.old.number }
        ensures kept { self.new.client.kept ≤ max self.old.client.kept free }
    {
        for _turn in 0..TURNS {
            if self.is_gone || !self.turn(now, free, eve) {
                return;
            }
        }
    }

    /// Takes note of the clock, and of a place that is free.
    fn note(&mut self, now: u128, is_full: bool)
        ensures number { self.new.number ≡ self.old.number }
        ensures kept { self.new.client.kept ≡ self.old.client.kept }
    {
        self.client.set_clock(now);
        if self.since.is_none() {
            self.since = Some(now);
        }
        self.is_spare = self.is_spare && is_full;
    }

    /// Moves what is ready, and never waits; of a body as many octets may be kept as are free. Whoever asks again at the last moment is heard
    /// before it is sent away, and nobody waits for an answer before the day begins.
    pub fn attend(&mut self, now: u128, is_full: bool, free: usize, eve: Option<Eve<'_>>)
        ensures early { is_some eve.entry ≡ true → waits_for_answer self.new.client.stage ≡ false }
        ensures number { self.new.number ≡ self.old.number }
        ensures kept { self.new.client.kept ≤ max self.old.client.kept free }
    {
        self.note(now, is_full);
        self.reply(eve);
        self.go_on(now, free, eve);
        if self.is_late(now, is_full) {
            self.give_up(now);
        }
    }
}

/// Whether a client that came beyond the places may be at this: it asks for what a monitor asks for, or has not asked yet.
fn may_stand(is_spare: bool, stage: Stage) -> bool
    ensures { result ≡ may_stand is_spare stage }
{
    match stage {
        Stage::Body(route) | Stage::Asked(route) => !is_spare || is_watched(route),
        _ => true,
    }
}

/// Whether a monitor asks for it.
fn is_watched(route: Route) -> bool
    ensures { result ≡ is_watched route }
{
    match route {
        Route::Health | Route::Ready | Route::Metrics => true,
        _ => false,
    }
}

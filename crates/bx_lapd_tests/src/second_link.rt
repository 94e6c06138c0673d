//! A second data link: its timers, its requests and what it sends. States are numbers, as Annex B of ITU-T Q.921 numbers them, and what is
//! told is a letter: `+` a link is there, `-` there is none, `d` a message, and the letters of errors.

use crate::drawn::message_of;
use crate::second_check::{add_all, close};
use arrayvec::ArrayVec;
use bx_lapd::FrameOctets;
use bx_q931::Octets;

pub(crate) const SABME: u8 = 0x6F;

pub(crate) const DISC: u8 = 0x43;

pub(crate) const RR: u8 = 1;

#[derive(Drop)]
pub(crate) struct Second {
    pub(crate) network: bool,
    pub(crate) state: u8,
    pub(crate) vs: u8,
    pub(crate) va: u8,
    pub(crate) vr: u8,
    rc: u8,
    pub(crate) asked: bool,
    pub(crate) busy: bool,
    pub(crate) rejected: bool,
    pub(crate) owed: bool,
    t200: Option<u64>,
    t203: Option<u64>,
    /// The numbers of messages that are not acknowledged.
    pub(crate) kept: ArrayVec<u32, 32>,
    pub(crate) dropped: u64,
    /// What the last call sent, told and delivered.
    pub(crate) sent: ArrayVec<FrameOctets, 9>,
    pub(crate) told: ArrayVec<u8, 4>,
    pub(crate) message: Octets,
}

impl Second {
    pub(crate) fn new(network: bool) -> Second {
        Second {
            network,
            state: 4,
            vs: 0,
            va: 0,
            vr: 0,
            rc: 0,
            asked: false,
            busy: false,
            rejected: false,
            owed: false,
            t200: None,
            t203: None,
            kept: ArrayVec::new(),
            dropped: 0,
            sent: ArrayVec::new(),
            told: ArrayVec::new(),
            message: Octets::new(),
        }
    }

    pub(crate) fn is_up(&self) -> bool {
        self.state >= 7
    }

    pub(crate) fn takes(&self) -> bool {
        let goes = self.is_up() || self.state == 5 && !self.asked;
        goes && self.kept.len() < 32
    }

    pub(crate) fn due(&self) -> Option<u64> {
        match self.t200 {
            Some(due) => Some(due),
            None => self.t203,
        }
    }

    /// Forgets what the last call did.
    pub(crate) fn turns(&mut self) {
        self.sent.clear();
        self.told.clear();
        self.message.clear();
    }

    pub(crate) fn tell(&mut self, letter: u8) {
        let _full = self.told.try_push(letter);
    }

    fn send(&mut self, command: bool, control: &[u8], message: &[u8]) {
        let mut octets = FrameOctets::new();
        add_all(
            &mut octets,
            &[if command == self.network { 2 } else { 0 }, 1],
        );
        add_all(&mut octets, control);
        add_all(&mut octets, message);
        let _full = self.sent.try_push(close(octets));
    }

    pub(crate) fn unnumbered(&mut self, kind: u8, poll: bool) {
        let command = kind == SABME || kind == DISC;
        self.send(command, &[if poll { kind | 0x10 } else { kind }], &[]);
    }

    pub(crate) fn supervisory(&mut self, kind: u8, command: bool, poll: bool) {
        let number = self.vr.wrapping_mul(2);
        self.owed = false;
        self.send(
            command,
            &[kind, if poll { number | 1 } else { number }],
            &[],
        );
    }

    pub(crate) fn start_t200(&mut self, now: u64) {
        self.t200 = Some(now.wrapping_add(150));
        self.t203 = None;
    }

    pub(crate) fn start_t203(&mut self, now: u64) {
        self.t200 = None;
        self.t203 = Some(now.wrapping_add(10_000));
    }

    fn clear(&mut self) {
        self.busy = false;
        self.rejected = false;
        self.owed = false;
    }

    /// State 7, from its beginning.
    pub(crate) fn begin(&mut self, now: u64) {
        self.state = 7;
        self.vs = 0;
        self.va = 0;
        self.vr = 0;
        self.clear();
        self.start_t203(now);
    }

    /// State 4.
    pub(crate) fn ends(&mut self) {
        self.state = 4;
        self.kept.clear();
        self.clear();
        self.t200 = None;
        self.t203 = None;
    }

    /// State 5: SABME, which layer 3 asked for or not.
    pub(crate) fn ask(&mut self, asked: bool, now: u64) {
        self.state = 5;
        self.asked = asked;
        self.rc = 0;
        self.clear();
        self.start_t200(now);
        self.unnumbered(SABME, true);
    }

    pub(crate) fn establish(&mut self, now: u64) {
        self.turns();
        if self.state == 6 {
            return;
        }
        self.kept.clear();
        if self.state == 5 {
            self.asked = true;
        } else {
            self.ask(true, now);
        }
    }

    pub(crate) fn release(&mut self, now: u64) {
        self.turns();
        if self.state == 4 {
            self.tell(b'-');
        } else if self.state != 6 {
            self.state = 6;
            self.kept.clear();
            self.clear();
            self.rc = 0;
            self.start_t200(now);
            self.unnumbered(DISC, true);
        }
    }

    pub(crate) fn give(&mut self, number: u32, now: u64) {
        self.turns();
        if self.takes() {
            let _full = self.kept.try_push(number);
            self.goes_on(now);
        }
    }

    /// How many were sent and are not acknowledged.
    pub(crate) fn outstanding(&self) -> u8 {
        self.vs.wrapping_sub(self.va) % 128
    }

    /// The next message, if the window has room for it.
    fn sends_next(&mut self, now: u64) {
        let place = self.outstanding();
        if self.state != 7 || self.busy || place >= 7 {
            return;
        }
        let Some(number) = self.kept.as_slice().get(usize::from(place)) else {
            return;
        };
        let message = message_of(*number);
        let control = [self.vs.wrapping_mul(2), self.vr.wrapping_mul(2)];
        self.send(true, &control, message.as_slice());
        self.vs = self.vs.wrapping_add(1) % 128;
        self.owed = false;
        if let None = self.t200 {
            self.start_t200(now);
        }
    }

    /// What is sent after each frame.
    pub(crate) fn goes_on(&mut self, now: u64) {
        for _place in 0..7u8 {
            self.sends_next(now);
        }
        if self.owed {
            self.supervisory(RR, false, false);
        }
    }

    fn enquire(&mut self, rc: u8, now: u64) {
        self.state = 8;
        self.rc = rc;
        self.start_t200(now);
        self.supervisory(RR, true, true);
    }

    /// The first enquiry: T200 counts, and T203 does not.
    fn enquires(&mut self, now: u64) {
        match self.t200 {
            Some(_) => self.enquire(1, now),
            None => self.enquire(0, now),
        }
    }

    /// Whether nothing that was given is unacknowledged, in state 7.
    pub(crate) fn is_at_rest(&self) -> bool {
        self.state == 7 && self.kept.is_empty()
    }

    pub(crate) fn poll(&mut self, now: u64) {
        self.turns();
        if self.is_at_rest() {
            self.enquire(0, now);
        }
    }

    /// A command that was not answered.
    fn repeats(&mut self, now: u64) {
        if self.rc < 20 {
            self.rc += 1;
            self.start_t200(now);
            self.unnumbered(if self.state == 5 { SABME } else { DISC }, true);
        } else {
            self.tell(if self.state == 5 { b'G' } else { b'H' });
            self.tell(b'-');
            self.ends();
        }
    }

    pub(crate) fn elapse(&mut self, now: u64) {
        self.turns();
        let Some(due) = self.due() else {
            return;
        };
        if due > now {
            return;
        }
        match self.state {
            5 | 6 => self.repeats(now),
            7 => self.enquires(now),
            8 if self.rc < 20 => self.enquire(self.rc.wrapping_add(1), now),
            8 => {
                self.tell(b'I');
                self.ask(false, now);
            }
            _ => {}
        }
    }
}

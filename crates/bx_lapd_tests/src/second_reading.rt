//! What octets that come do to the second link.

use crate::second_check::second_check;
use crate::second_link::{RR, Second};
use bx_q931::Octets;

const RNR: u8 = 5;

const REJ: u8 = 9;

const UA: u8 = 0x63;

const DM: u8 = 0x0F;

impl Second {
    /// Octets that came.
    pub(crate) fn hears(&mut self, octets: &[u8], now: u64) {
        self.turns();
        if octets.len() < 5 {
            self.drops();
            return;
        }
        let (body, check) = octets.split_at(octets.len() - 2);
        let sum = second_check(body);
        let [low, high] = check else {
            return;
        };
        if u16::from(*low) != sum % 256 || u16::from(*high) != sum / 256 {
            self.drops();
            return;
        }
        let [first, second, control, rest @ ..] = body else {
            self.drops();
            return;
        };
        if (*first | 2) != 2 || *second != 1 {
            self.drops();
            return;
        }
        self.hears_control((*first == 2) != self.network, *control, rest, now);
        self.goes_on(now);
    }

    fn drops(&mut self) {
        self.dropped = self.dropped.saturating_add(1);
    }

    fn hears_control(&mut self, command: bool, control: u8, rest: &[u8], now: u64) {
        if control % 4 == 3 {
            let poll = control & 0x10 != 0;
            self.hears_unnumbered(control & 0xEF, command, poll, rest.len(), now);
            return;
        }
        let Some((second, info)) = rest.split_first() else {
            self.drops();
            return;
        };
        let poll = *second % 2 == 1;
        if control % 2 == 1 {
            self.hears_supervisory(control, command, poll, *second / 2, info.len(), now);
        } else if !command {
            self.faults(b'L', now);
        } else if info.len() > 260 {
            self.faults(b'O', now);
        } else if self.is_up() {
            self.hears_message(control / 2, poll, info);
            self.hears_number(*second / 2, now);
        }
    }

    /// An error that a link which is up does not survive.
    fn faults(&mut self, letter: u8, now: u64) {
        self.tell(letter);
        if self.is_up() {
            self.ask(false, now);
        }
    }

    fn hears_message(&mut self, sent: u8, poll: bool, info: &[u8]) {
        if sent == self.vr {
            self.vr = self.vr.wrapping_add(1) % 128;
            self.rejected = false;
            self.owed = true;
            self.tell(b'd');
            self.message = Octets::new();
            for octet in info {
                let _full = self.message.try_push(*octet);
            }
        } else if !self.rejected {
            self.rejected = true;
            self.supervisory(REJ, false, poll);
            return;
        }
        if poll {
            self.supervisory(RR, false, true);
        }
    }

    /// Whether the number acknowledges only what was sent; what it acknowledges is kept no longer.
    fn acknowledges(&mut self, received: u8) -> bool {
        let count = received.wrapping_sub(self.va) % 128;
        if count > self.outstanding() {
            return false;
        }
        self.va = received;
        for _place in 0..count {
            if !self.kept.is_empty() {
                self.kept.remove(0);
            }
        }
        true
    }

    fn restarts(&mut self, old: u8, now: u64) {
        if self.vs == self.va {
            self.start_t203(now);
        } else if old != self.va {
            self.start_t200(now);
        }
    }

    fn hears_number(&mut self, received: u8, now: u64) {
        let old = self.va;
        if !self.acknowledges(received) {
            self.faults(b'J', now);
        } else if self.state == 7 && !self.busy {
            self.restarts(old, now);
        }
    }

    fn hears_supervisory(
        &mut self,
        kind: u8,
        command: bool,
        poll: bool,
        received: u8,
        length: usize,
        now: u64,
    ) {
        if kind != RR && kind != RNR && kind != REJ {
            self.faults(b'L', now);
        } else if length > 0 {
            self.faults(b'M', now);
        } else if self.is_up() {
            self.busy = kind == RNR;
            if command && poll {
                self.supervisory(RR, false, true);
            }
            self.hears_standing(kind, !command && poll, received, now);
        }
    }

    /// Where the peer stands; `last` says that it was asked.
    fn hears_standing(&mut self, kind: u8, last: bool, received: u8, now: u64) {
        if last && self.state == 7 {
            self.tell(b'A');
        }
        let old = self.va;
        if !self.acknowledges(received) {
            self.faults(b'J', now);
            return;
        }
        if self.state == 8 && !last {
            return;
        }
        if kind == RNR {
            self.start_t200(now);
        } else if self.state == 7 && kind == RR {
            self.restarts(old, now);
        } else {
            self.vs = self.va;
            self.start_t203(now);
        }
        self.state = 7;
    }

    fn hears_unnumbered(&mut self, kind: u8, command: bool, poll: bool, length: usize, now: u64) {
        let fits = match kind {
            0x6F | 0x43 | 0x03 => command,
            UA | DM | 0x87 => !command,
            0xAF => true,
            _ => false,
        };
        if !fits {
            self.faults(b'L', now);
            return;
        }
        match (kind, length) {
            (0x03 | 0xAF, _) if length > 260 => self.faults(b'O', now),
            (0x03 | 0xAF, _) => {}
            (0x87, 5) if self.is_up() => self.faults(b'K', now),
            (0x87, 5) => {}
            (0x87, _) => self.faults(b'N', now),
            (0x6F, 0) => self.hears_sabme(poll, now),
            (0x43, 0) => self.hears_disc(poll),
            (UA, 0) => self.hears_ua(poll, now),
            (_, 0) => self.hears_dm(poll, now),
            (_, _) => self.faults(b'M', now),
        }
    }

    fn hears_sabme(&mut self, poll: bool, now: u64) {
        if self.state == 6 {
            self.unnumbered(DM, poll);
            return;
        }
        self.unnumbered(UA, poll);
        if self.is_up() {
            self.tell(b'F');
            self.loses_and_begins(now);
        } else if self.state == 4 {
            self.tell(b'+');
            self.begin(now);
        }
    }

    /// State 7 anew; what was sent and not acknowledged is lost, with all after it.
    fn loses_and_begins(&mut self, now: u64) {
        if self.vs != self.va {
            self.kept.clear();
            self.tell(b'+');
        }
        self.begin(now);
    }

    fn hears_disc(&mut self, poll: bool) {
        if self.state < 6 {
            self.unnumbered(DM, poll);
            return;
        }
        self.unnumbered(UA, poll);
        if self.is_up() {
            self.tell(b'-');
            self.ends();
        }
    }

    fn hears_ua(&mut self, last: bool, now: u64) {
        match (self.state, last) {
            (_, false) => self.tell(b'D'),
            (5, true) if self.asked => {
                self.tell(b'+');
                self.begin(now);
            }
            (5, true) => self.loses_and_begins(now),
            (6, true) => {
                self.tell(b'-');
                self.ends();
            }
            (_, true) => self.tell(b'C'),
        }
    }

    fn hears_dm(&mut self, last: bool, now: u64) {
        match (self.state, last) {
            (4, false) => self.ask(true, now),
            (5 | 6, true) => {
                self.tell(b'-');
                self.ends();
            }
            (7, true) => self.tell(b'B'),
            (8, true) => self.faults(b'B', now),
            (7 | 8, false) => self.faults(b'E', now),
            _ => {}
        }
    }
}

//! A far end as an end of the link.

use crate::far::Far;
use arrayvec::ArrayVec;
use bx_events::LAST_MOMENT;
use bx_frames::{Course, End};
use bx_q931::Octets;

impl Course for Far {
    ghost use Rattle.bx_far.specs.Course.{far_due, far_next, far_sent, far_text};

    ghost next = { far_next };

    ghost sent = { far_sent };

    ghost text = { far_text };

    ghost moment_of = { λ d. d.moment };

    ghost turn_of = { far_due };
}

impl End<Far> for Far {
    ghost day = { λ d. d };

    ghost kept = { λ d events d'. Unit {0} };

    fn hear(&mut self, message: &Octets) -> Option<Octets> {
        self.receive(message)
    }

    fn next_second(&mut self) -> ArrayVec<Octets, 30> {
        self.tick()
    }

    fn skip_quiet_second(&mut self) -> bool {
        false
    }

    fn reached(&self) -> u32 {
        self.moment()
    }

    fn turn(&self) -> u32 {
        (self.moment() + 1).min(LAST_MOMENT)
    }

    ghost keeps_nothing = { λ d. tt };

    ghost keeps_on = { λ d e f xs ys p q. tt };
}

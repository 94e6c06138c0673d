//! An exchange as an end of the link.

use crate::exchange::Exchange;
use arrayvec::ArrayVec;
use bx_frames::{Course, End};
use bx_q931::{Octets, acknowledge_restart};

impl Course for Exchange {
    ghost use Rattle.bx_day.specs.Course.{exchange_next, exchange_sent, exchange_text};

    ghost next = { exchange_next };

    ghost sent = { exchange_sent };

    ghost text = { exchange_text };

    ghost moment_of = { λ d. d.moment };

    ghost turn_of = { λ d. d.moment };
}

impl End<Exchange> for Exchange {
    ghost day = { λ d. d };

    ghost kept = { λ d events d'. Unit {0} };

    fn hear(&mut self, message: &Octets) -> Option<Octets> {
        let reply = self.receive(message);
        acknowledge_restart(message).or(reply)
    }

    fn next_second(&mut self) -> ArrayVec<Octets, 30> {
        self.tick()
    }

    fn skip_quiet_second(&mut self) -> bool {
        if self.quiet() == 0 {
            return false;
        }
        self.skip(1);
        true
    }

    fn reached(&self) -> u32 {
        self.moment()
    }

    fn turn(&self) -> u32 {
        self.moment()
    }

    ghost keeps_nothing = { λ d. tt };

    ghost keeps_on = { λ d e f xs ys p q. tt };
}

//! Whether the other end is there, as each second of the clock shows it.

ghost use Rattle.std.specs.Prelude.{◌≡◌};
ghost use Rattle.bx_line_world.specs.Seeing.{is_look_over, is_on_the_second, asked_anew, look_until, Sees};
ghost use Rattle.bx_line_world.specs.Steps.{GoesOnLooking};

use crate::line::Line;
use crate::wire::Wire;
use bx_live::SECOND;

/// How long an answer is waited for after the instant of a second, and where the second begins later, in nanoseconds.
const HALF_A_SECOND: u128 = 500_000_000;

const LEAST_LOOK: u128 = 50_000_000;

/// How many looks there are at most: more than there ever are.
const MOST_LOOKS: u64 = u64::MAX;

/// Up to which reading of the clock an answer is waited for, in a second with this instant that begins at that reading.
pub(crate) fn look_until(instant: u128, shown: u128) -> u128
    ensures { result ≡ look_until instant shown }
{
    instant
        .saturating_add(HALF_A_SECOND)
        .max(shown.saturating_add(LEAST_LOOK))
}

impl<W> Line<W> {
    /// Whether looking is over: the time is, something was lost, or the other end is seen.
    fn is_look_over(&self, until: u128) -> bool
        ensures { result ≡ is_look_over self.now until }
    {
        until <= self.shown || self.post.lost.is_some() || self.is_seen()
    }

    /// Where a second of the clock begins at this instant, the other end has to be asked anew.
    pub(crate) fn ask_anew(&mut self, instant: u128)
        ensures { self.new ≡ asked_anew (is_on_the_second instant) self.old }
    {
        if instant % SECOND == 0 {
            self.post.asked = false;
        }
    }
}

impl<W: Wire> Line<W> {
    /// Looks at the timer, asks the other end where that is to be done, and waits for a frame. Answers whether looking is over.
    fn look_once(&mut self, until: u128) -> bool
        ensures { GoesOnLooking W.did until result self.old self.new }
    {
        self.elapse();
        if self.is_look_over(until) {
            return true;
        }
        self.ask_end();
        let _came = self.wait(until);
        false
    }

    /// Looks for the other end, up to a reading of the clock.
    pub(crate) fn see(&mut self, until: u128)
        ensures { Sees W.did until self.old self.new }
    {
        let mut looks = 0u64;
        while looks < MOST_LOOKS {
            if self.look_once(until) {
                return;
            }
            looks += 1;
        }
        self.elapse();
    }
}

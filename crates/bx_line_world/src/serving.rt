//! A data link that is served while an instant is waited for.

ghost use Rattle.bx_line_world.specs.Serving.{Served, Polled};
ghost use Rattle.bx_line_world.specs.Steps.{GoesOnWaiting};

use crate::line::Line;
use crate::wire::Wire;

/// How many slices a wait has at most: more than are ever waited for.
const MOST_SLICES: u64 = u64::MAX;

/// How many frames without news are heard at most before what is owed is written.
const MOST_POLLED: u32 = 64;

impl<W: Wire> Line<W> {
    /// Looks at the timer, and waits for a frame where the wait is not over. Answers whether it is.
    fn serve_once(&mut self, until: u128, in_turn: bool) -> bool
        ensures { GoesOnWaiting W.did until in_turn result self.old self.new }
    {
        self.elapse();
        if self.is_over(until, in_turn) {
            return true;
        }
        let _came = self.wait(until);
        false
    }

    /// Hears the frames that are there already, up to a message or a loss.
    pub(crate) fn poll(&mut self)
        ensures { Polled W.did self.old self.new }
    {
        let mut frames = 0u32;
        while frames < MOST_POLLED && !self.post.has_news() {
            frames += 1;
            if !self.wait(0) {
                return;
            }
        }
    }

    /// Serves the link up to an instant; or, in a turn, until a message is there or one was lost.
    pub(crate) fn serve(&mut self, until: u128, in_turn: bool)
        ensures { Served W.did until in_turn self.old self.new }
    {
        let mut slices = 0u64;
        while slices < MOST_SLICES {
            if self.serve_once(until, in_turn) {
                return;
            }
            slices += 1;
        }
        self.elapse();
    }
}

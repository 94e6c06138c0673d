//! The moment of a day, shown on standard error while the day runs.

ghost use Rattle.std.specs.Prelude.{◌≡◌, ◌++◌, ◌∷◌, [], ℕ, List, true, false};
ghost use Rattle.std.specs.List.{flat_map};
ghost use Rattle.bx_events.specs.Events.{Event, Tick, Receive};
ghost use Rattle.bx_frames.specs.Frames.{frame_with, turn_frame};
ghost use Rattle.bx_frames.specs.Courses.{reply_frame, reply_messages};

use arrayvec::ArrayVec;
use bx_frames::{Course, End};
use bx_q931::Octets;
use std::rt::Clock;
use std::time::{Duration, Instant};

/// How many milliseconds a moment that was shown stands at least.
const STANDS: u64 = 250;

/// An end of the link whose moment is shown, where it is to be shown, at most four times a second. What standard error does
/// with it changes nothing.
#[derive(Drop)]
pub struct Shown<'a, E, H> {
    pub end: E,
    rt: &'a H,
    is_shown: bool,
    last: Option<Instant>,
}

/// Shows the moment, where the last one was shown long enough ago.
fn show<H: Clock + Eprint>(rt: &H, last: &mut Option<Instant>, moment: u32) {
    let Ok(now) = Instant::now(rt) else {
        return;
    };
    if let Some(before) = *last
        && now.duration_since(before) < Duration::from_millis(STANDS)
    {
        return;
    }
    *last = Some(now);
    let _ = eprint!(rt; "\rmoment {moment}");
}

impl<'a, E, H> Shown<'a, E, H> {
    /// An end whose moment is shown from now on, or is not.
    pub fn new(rt: &'a H, end: E, is_shown: bool) -> Self
        ensures { result.end ≡ end }
    {
        Shown {
            end,
            rt,
            is_shown,
            last: None,
        }
    }

    /// The end, shown no more.
    pub fn into_end(self) -> E
        ensures { result ≡ self.entry.end }
    {
        let Shown {
            end,
            rt: _,
            is_shown: _,
            last: _,
        } = self;
        end
    }
}

impl<'a, E, H: Eprint> Shown<'a, E, H> {
    /// Takes away what was shown.
    pub fn clear(&self) {
        if self.last.is_some() {
            let _ = eprint!(self.rt; "\r              \r");
        }
    }
}

impl<'a, L: Course, E: End<L>, H: Clock + Eprint> End<L> for Shown<'a, E, H> {
    ghost day = { λ s. E.day s.end };

    ghost kept = { λ s events t. E.kept s.end events t.end };

    fn hear(&mut self, message: &Octets) -> Option<Octets> {
        self.end.hear(message)
    }

    fn next_second(&mut self) -> ArrayVec<Octets, 30> {
        let sent = self.end.next_second();
        if self.is_shown {
            show(self.rt, &mut self.last, self.end.reached());
        }
        sent
    }

    fn skip_quiet_second(&mut self) -> bool {
        if !self.end.skip_quiet_second() {
            return false;
        }
        if self.is_shown {
            show(self.rt, &mut self.last, self.end.reached());
        }
        true
    }

    fn reached(&self) -> u32 {
        self.end.reached()
    }

    fn turn(&self) -> u32 {
        self.end.turn()
    }

    ghost keeps_nothing = { λ s. E.keeps_nothing s.end };

    ghost keeps_on = { λ s t u xs ys p q. E.keeps_on s.end t.end u.end xs ys p q };
}

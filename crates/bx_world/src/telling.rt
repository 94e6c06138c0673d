//! A live day that tells how it goes, on standard error.

ghost use Rattle.std.specs.Prelude.{◌≡◌};

use bx_calendar::Clock as DayClock;
use bx_devices::WriteFailed;
use bx_events::LiveEvent;
use bx_frames::{Frame, LinkFault};
use bx_live::{Begin, CannotLog, Loss, World};
use bx_q931::Octets;
use std::rt::Clock;
use std::time::{Duration, Instant};

/// How many milliseconds a moment that was shown stands at least.
const STANDS: u64 = 250;

/// A world whose moment is shown on standard error, where it is to be shown, at most four times a second; and whose faults of the link, late
/// seconds, and seconds from which on there is no link or one again are told there in a line each, where there is a clock for the time of
/// day. What standard error does with it changes nothing.
#[derive(Drop)]
pub struct Telling<'a, W, H> {
    pub world: W,
    rt: &'a H,
    clock: Option<DayClock>,
    is_shown: bool,
    second: u32,
    late: u32,
    is_away: bool,
    last: Option<Instant>,
}

impl<'a, W, H> Telling<'a, W, H> {
    /// A world that tells from now on.
    pub fn new(rt: &'a H, world: W, clock: Option<DayClock>, is_shown: bool) -> Self
        ensures { result.world ≡ world }
    {
        Telling {
            world,
            rt,
            clock,
            is_shown,
            second: 0,
            late: 0,
            is_away: false,
            last: None,
        }
    }

    /// The world, which tells no more.
    pub fn into_world(self) -> W
        ensures { result ≡ self.entry.world }
    {
        let Telling {
            world,
            rt: _,
            clock: _,
            is_shown: _,
            second: _,
            late: _,
            is_away: _,
            last: _,
        } = self;
        world
    }
}

impl<'a, W, H: Clock + Eprint> Telling<'a, W, H> {
    /// Takes away the moment that was shown.
    pub fn clear(&mut self)
        ensures { self.new.world ≡ self.old.world }
    {
        if self.last.is_some() {
            let _ = eprint!(self.rt; "\r              \r");
            self.last = None;
        }
    }

    /// Shows the moment, where it is to be shown and the last one was shown long enough ago.
    fn show(&mut self)
        ensures { self.new.world ≡ self.old.world }
    {
        if !self.is_shown {
            return;
        }
        let Ok(now) = Instant::now(self.rt) else {
            return;
        };
        if let Some(before) = self.last
            && now.duration_since(before) < Duration::from_millis(STANDS)
        {
            return;
        }
        self.last = Some(now);
        let _ = eprint!(self.rt; "\rmoment {}", self.second);
    }

    /// The time of day of the second that began last, where there is a clock: hours, minutes and seconds.
    fn time(&self) -> Option<(u32, u32, u32)> {
        let clock = self.clock?;
        let second = clock.second_shown(self.second)?;
        Some((second / 3_600, second / 60 % 60, second % 60))
    }

    /// Tells how many seconds were late, where some were, and counts anew.
    fn tell_late(&mut self)
        ensures { self.new.world ≡ self.old.world }
    {
        if self.late == 0 {
            return;
        }
        let late = self.late;
        self.late = 0;
        if let Some((hours, minutes, seconds)) = self.time() {
            self.clear();
            let _ = eprintln!(self.rt;
                "late seconds: {late}, up to {hours:02}:{minutes:02}:{seconds:02}"
            );
        }
    }

    /// Tells why the link is lost.
    fn tell_fault(&mut self, fault: LinkFault)
        ensures { self.new.world ≡ self.old.world }
    {
        if let Some((hours, minutes, seconds)) = self.time() {
            self.clear();
            let _ = eprintln!(self.rt; "bx: {fault} {hours:02}:{minutes:02}:{seconds:02}");
        }
    }

    /// Tells that there is no link from this second on, or one again, where that is new.
    fn tell_link(&mut self, is_away: bool)
        ensures { self.new.world ≡ self.old.world }
    {
        if is_away == self.is_away {
            return;
        }
        self.is_away = is_away;
        let what = if is_away { "no link" } else { "a link" };
        if let Some((hours, minutes, seconds)) = self.time() {
            self.clear();
            let _ = eprintln!(self.rt; "{what} from {hours:02}:{minutes:02}:{seconds:02} on");
        }
    }

    /// Tells of a second that has begun.
    fn tell_begun(&mut self, second: u32, begin: Begin)
        ensures { self.new.world ≡ self.old.world }
    {
        match begin {
            Begin::Late => self.late = self.late.saturating_add(1),
            Begin::Alone | Begin::Joined | Begin::Ended => self.tell_late(),
        }
        self.second = second;
        match begin {
            Begin::Alone => self.tell_link(true),
            Begin::Joined => self.tell_link(false),
            Begin::Late | Begin::Ended => {}
        }
        self.show();
    }
}

impl<'a, W: World, H: Clock + Eprint> World for Telling<'a, W, H> {
    ghost did = { λ s acts t. W.did s.world acts t.world };

    fn begin(&mut self, second: u32) -> Begin {
        let begin = self.world.begin(second);
        self.tell_begun(second, begin);
        begin
    }

    fn drop_peer(&mut self, loss: Loss) {
        self.world.drop_peer(loss);
        match loss {
            Loss::Fault(fault) => self.tell_fault(fault),
            Loss::Late => {}
        }
    }

    fn log(&mut self, event: LiveEvent<'_>) -> Result<(), CannotLog> {
        self.world.log(event)
    }

    fn sync(&mut self) -> Result<(), CannotLog> {
        self.world.sync()
    }

    fn write_turn(&mut self, sent: &[Octets], moment: u32) -> Result<(), WriteFailed> {
        self.world.write_turn(sent, moment)
    }

    fn write_message(&mut self, message: &Octets) -> Result<(), WriteFailed> {
        self.world.write_message(message)
    }

    fn read(&mut self, room: u32) -> Result<Frame, LinkFault> {
        self.world.read(room)
    }

    fn take_waiting(&mut self) -> Option<Octets> {
        self.world.take_waiting()
    }

    fn end_day(&mut self) {
        self.world.end_day();
        self.tell_late();
        self.clear();
    }

    ghost did_nothing = { λ s. W.did_nothing s.world };

    ghost did_more = { λ s t u xs ys p q. W.did_more s.world t.world u.world xs ys p q };
}

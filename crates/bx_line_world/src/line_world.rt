//! A live day over a data link: by the clock, towards whoever is at the other end of the wire.

ghost use Rattle.std.specs.Prelude.{◌≡◌, is_ok, Ok};
ghost use Rattle.bx_line_world.specs.Days.{IsSecondBegun, Begins, GivesAll, TakesMessage, ReadsTurn, octets_of_message};

use crate::line::Line;
use crate::seeing::look_until;
use crate::wire::Wire;
use bx_devices::WriteFailed;
use bx_events::LiveEvent;
use bx_frames::{Frame, LinkFault};
use bx_journal::Disk;
use bx_live::{Begin, CannotLog, Log, Loss, SECOND, Schedule, World};
use bx_q931::{Octets, copied};

/// A world with a data link over a wire, whose seconds begin by the clock beside it, and a journal.
#[derive(Drop)]
pub struct LineWorld<W, D: Disk> {
    pub schedule: Schedule,
    pub line: Line<W>,
    /// The second that began last, and the octets of the messages that it has taken.
    pub second: u32,
    pub taken: u32,
    pub log: Log<D>,
}

/// The octets of messages that a second takes at most: what a line of 64 kbit/s carries in it.
const MOST_OCTETS: u32 = 8000;

/// The octets of a message that was read.
fn octets_in(frame: &Frame) -> u32
    ensures { result ≡ octets_of_message (Ok frame.now) }
{
    match frame {
        Frame::Message(message) => message.len() as u32,
        Frame::EndOfTurn(_) | Frame::EndOfDay => 0,
    }
}

impl<W, D: Disk> LineWorld<W, D> {
    /// A world whose seconds begin by the schedule.
    pub fn new(schedule: Schedule, line: Line<W>, kept: Log<D>) -> Self
        ensures schedule { result.schedule ≡ schedule }
        ensures line { result.line ≡ line }
        ensures kept { result.log ≡ kept }
    {
        LineWorld {
            schedule,
            line,
            second: 0,
            taken: 0,
            log: kept,
        }
    }
}

impl<W: Wire> Line<W> {
    /// How a second begins whose instant was waited for: with a link where the other end is seen.
    fn begun(&mut self, instant: u128) -> Begin
        ensures { IsSecondBegun W.did result instant self.old self.new }
    {
        if self.shown.saturating_sub(instant) > SECOND {
            return Begin::Late;
        }
        let until = look_until(instant, self.shown);
        self.ask_anew(instant);
        self.see(until);
        if self.is_seen() && self.post.lost.is_none() {
            Begin::Joined
        } else {
            Begin::Alone
        }
    }

    /// Waits for the instant of a second, and says how it begins.
    fn begin(&mut self, instant: u128) -> Begin
        ensures { Begins W.did instant result self.old self.new }
    {
        self.ask();
        self.serve(instant, false);
        let begin = self.begun(instant);
        self.post.begin(begin);
        begin
    }

    /// Gives messages, up to the first that is not taken.
    fn give_all(&mut self, messages: &[Octets]) -> Result<(), WriteFailed>
        ensures { GivesAll W.did messages.now (is_ok result) self.old self.new }
    {
        for message in messages {
            match self.give(copied(message)) {
                Ok(()) => {}
                Err(_) => return Err(WriteFailed),
            }
        }
        Ok(())
    }

    /// The first message of those that are there already.
    fn take_waiting(&mut self, left: u32) -> Option<Octets>
        ensures { TakesMessage W.did left result self.old self.new }
    {
        self.poll();
        if self.post.lost.is_some() {
            return None;
        }
        self.post.take_first(left)
    }

    /// The next message of a turn that lasts until an instant, or its end. One that has more octets than are left waits for the next turn.
    fn next(&mut self, until: u128, second: u32, left: u32) -> Result<Frame, LinkFault>
        ensures { ReadsTurn W.did until second left result self.old self.new }
    {
        self.serve(until, true);
        match self.post.lost {
            Some(fault) => return Err(fault),
            None => {}
        }
        match self.post.take_first(left) {
            Some(message) => Ok(Frame::Message(message)),
            None => Ok(Frame::EndOfTurn(second)),
        }
    }
}

impl<W: Wire, D: Disk> World for LineWorld<W, D> {
    ghost use Rattle.bx_live.specs.Chains.{Chain, chain_more};
    ghost use Rattle.bx_line_world.specs.Days.{GoesByLine};
    ghost use Rattle.std.proofs.Common.{refl};

    ghost did = { Chain (GoesByLine W.did D.holds D.may_leave D.moment D.left_since D.has_failed) };

    fn begin(&mut self, second: u32) -> Begin {
        self.second = second;
        self.taken = 0;
        self.line.begin(self.schedule.instant(second))
    }

    fn drop_peer(&mut self, loss: Loss) {
        self.line.post.drop_link(loss);
    }

    fn log(&mut self, event: LiveEvent<'_>) -> Result<(), CannotLog> {
        self.log.log(event)
    }

    fn sync(&mut self) -> Result<(), CannotLog> {
        self.log.sync()
    }

    fn write_turn(&mut self, sent: &[Octets], _moment: u32) -> Result<(), WriteFailed> {
        self.line.give_all(sent)
    }

    fn write_message(&mut self, message: &Octets) -> Result<(), WriteFailed> {
        self.line.give(copied(message))
    }

    fn read(&mut self, room: u32) -> Result<Frame, LinkFault> {
        let left = MOST_OCTETS.saturating_sub(self.taken);
        if room == 0 {
            return Ok(Frame::EndOfTurn(self.second));
        }
        let until = self.schedule.instant(self.second.saturating_add(1));
        let frame = self.line.next(until, self.second, left)?;
        self.taken = self.taken.saturating_add(octets_in(&frame));
        Ok(frame)
    }

    fn take_waiting(&mut self) -> Option<Octets> {
        let left = MOST_OCTETS.saturating_sub(self.taken);
        let message = self.line.take_waiting(left)?;
        self.taken = self.taken.saturating_add(message.len() as u32);
        Some(message)
    }

    fn end_day(&mut self) {}

    ghost did_nothing = { λ s. refl };

    ghost did_more = { chain_more (GoesByLine W.did D.holds D.may_leave D.moment D.left_since D.has_failed) };
}

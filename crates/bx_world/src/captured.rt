//! A live day with a capture of what goes over its link.

ghost use Rattle.std.specs.Prelude.{◌≡◌, ◌≤◌};
ghost use Rattle.bx_capture.specs.Captures.{is_unfaulted};
ghost use Rattle.bx_capture.specs.declared.start.TheConstants.{LAST_START};
ghost use Rattle.bx_events.specs.declared.moment.TheConstants.{LAST_MOMENT};

use bx_capture::{Direction, is_whole, keep, keep_sent};
use bx_devices::{Watched, WriteFailed};
use bx_events::{LAST_MOMENT, LiveEvent};
use bx_frames::{Frame, LinkFault};
use bx_live::{Begin, CannotLog, Loss, World};
use bx_q931::Octets;
use std::io::Write;

/// A world, and the file, if there is one, into which the packets of its messages are written. Seconds of the day count from the
/// first second.
#[derive(Drop)]
pub struct CapturedWorld<W, F> {
    pub world: W,
    pub file: Option<Watched<F>>,
    first: u32,
    second: u32,
    ghost limit: { first ≤ LAST_START },
    ghost day: { second ≤ LAST_MOMENT },
}

impl<W, F: Write> CapturedWorld<W, F> {
    ghost use Rattle.bx_world.specs.Captures.{first_second};

    /// Captures a world from now on, into the file where there is one. Moment 0 is the first second. That is at most
    /// `LAST_START`, so that 32 bits number each of the 300,000 seconds after it.
    pub fn new(world: W, file: Option<Watched<F>>, first: u32) -> Self
        requires { first ≤ LAST_START }
        ensures world { result.world ≡ world }
        ensures file { result.file ≡ file }
        ensures first { first_second result ≡ first }
    {
        CapturedWorld {
            world,
            file,
            first,
            second: 0,
        }
    }

    /// The world, captured no more.
    pub fn into_world(self) -> W
    where
        F: Drop,
        ensures { result ≡ self.world }
    {
        let CapturedWorld {
            world,
            file: _,
            first: _,
            second: _,
        } = self;
        world
    }

    /// Whether no write of the file has failed.
    pub fn is_whole(&self) -> bool
        ensures { result ≡ is_unfaulted self.now.file }
    {
        is_whole(&self.file)
    }
}

impl<W: World, F: Write> World for CapturedWorld<W, F> {
    ghost use Rattle.bx_live.specs.Chains.{Chain, chain_more};
    ghost use Rattle.bx_world.specs.Captures.{Captures};
    ghost use Rattle.std.proofs.Common.{refl};

    ghost did = { λ s acts t. W.did s.world acts t.world × Chain (Captures F.contents) s acts t };

    fn begin(&mut self, second: u32) -> Begin {
        self.second = second.min(LAST_MOMENT);
        self.world.begin(second)
    }

    fn drop_peer(&mut self, loss: Loss) {
        self.world.drop_peer(loss);
    }

    fn log(&mut self, event: LiveEvent<'_>) -> Result<(), CannotLog> {
        self.world.log(event)
    }

    fn sync(&mut self) -> Result<(), CannotLog> {
        self.world.sync()
    }

    fn write_turn(&mut self, sent: &[Octets], moment: u32) -> Result<(), WriteFailed> {
        keep_sent(&mut self.file, self.first + self.second, sent);
        self.world.write_turn(sent, moment)
    }

    fn write_message(&mut self, message: &Octets) -> Result<(), WriteFailed> {
        keep(
            &mut self.file,
            self.first + self.second,
            Direction::Sent,
            message,
        );
        self.world.write_message(message)
    }

    fn read(&mut self, room: u32) -> Result<Frame, LinkFault> {
        match self.world.read(room) {
            Ok(Frame::Message(message)) => {
                keep(
                    &mut self.file,
                    self.first + self.second,
                    Direction::Received,
                    &message,
                );
                Ok(Frame::Message(message))
            }
            other => other,
        }
    }

    fn take_waiting(&mut self) -> Option<Octets> {
        match self.world.take_waiting() {
            Some(message) => {
                keep(
                    &mut self.file,
                    self.first + self.second,
                    Direction::Received,
                    &message,
                );
                Some(message)
            }
            None => None,
        }
    }

    fn end_day(&mut self) {
        self.world.end_day();
    }

    ghost did_nothing = { λ s. (W.did_nothing s.world, refl) };

    ghost did_more = { λ s t u xs ys p q. (W.did_more s.world t.world u.world xs ys p.0 q.0, chain_more (Captures F.contents) s t u xs ys p.1 q.1) };
}

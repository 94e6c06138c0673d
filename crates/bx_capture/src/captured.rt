//! An end of the link with a capture of what it hears and sends.

ghost use Rattle.std.specs.Prelude.{◌≡◌, ◌+◌, ◌≤◌, ◌++◌, ◌∷◌, [], ℕ, List, true, false};
ghost use Rattle.std.specs.List.{flat_map};
ghost use Rattle.bx_events.specs.Events.{Event, Tick, Receive};
ghost use Rattle.bx_frames.specs.Courses.{after, told, reply_frame, reply_messages};
ghost use Rattle.bx_frames.specs.Frames.{frame_with, turn_frame};
ghost use Rattle.bx_capture.specs.Packets.{packet};
ghost use Rattle.bx_capture.specs.Captures.{packet_sent, is_unfaulted, IsKept, Keeps};
ghost use Rattle.bx_capture.specs.Keeping.{captured_nothing, captured_on};
ghost use Rattle.bx_capture.specs.declared.start.TheConstants.{LAST_START};
ghost use Rattle.bx_capture.specs.declared.packet.Direction.TheVariants.{Sent, Received};

use crate::packet::{Direction, write_packet};
use arrayvec::ArrayVec;
use bx_devices::Watched;
use bx_frames::{Course, End};
use bx_q931::Octets;
use std::io::Write;

/// An end of the link, and the file, if there is one, into which the packets of its messages are written. Moments count from
/// the first second.
#[derive(Drop)]
pub struct Captured<E, W> {
    pub end: E,
    pub file: Option<Watched<W>>,
    pub first: u32,
    ghost limit: { first ≤ LAST_START },
}

/// Writes the packet of a message, unless a write failed before.
fn write_while_whole<W: Write>(
    file: &mut Watched<W>,
    second: u32,
    direction: Direction,
    message: &Octets,
)
    ensures { IsKept W.contents file.old file.new (packet second direction message.now.items) }
{
    if file.faulted() {
        return;
    }
    let _ = write_packet(file, second, direction, message);
}

/// Writes the packet of a message, where there is a file of which no write has failed.
pub fn keep<W: Write>(
    file: &mut Option<Watched<W>>,
    second: u32,
    direction: Direction,
    message: &Octets,
)
    ensures { Keeps W.contents file.old file.new (packet second direction message.now.items) }
{
    if let Some(file) = file {
        write_while_whole(file, second, direction, message);
    }
}

/// Writes the packets of messages that are sent, where there is a file of which no write has failed.
pub fn keep_sent<W: Write>(file: &mut Option<Watched<W>>, second: u32, sent: &[Octets])
    ensures { Keeps W.contents file.old file.new (flat_map (packet_sent second) sent.now) }
{
    for message in sent {
        keep(file, second, Direction::Sent, message);
    }
}

/// Whether no write of a capture has failed, where there is one.
pub fn is_whole<W>(file: &Option<Watched<W>>) -> bool
    ensures { result ≡ is_unfaulted file.now }
{
    match file {
        Some(file) => !file.faulted(),
        None => true,
    }
}

/// Writes the packet of a reply, where there is one.
pub fn keep_reply<W: Write>(file: &mut Option<Watched<W>>, second: u32, reply: &Option<Octets>)
    ensures { Keeps W.contents file.old file.new (flat_map (packet_sent second) (reply_messages reply.now)) }
{
    if let Some(reply) = reply {
        keep(file, second, Direction::Sent, reply);
    }
}

impl<E, W: Write> Captured<E, W> {
    /// Captures an end from now on, into the file where there is one. Moment 0 is the first second. That is at most
    /// `LAST_START`, so that 32 bits number each of the 300,000 seconds after it.
    pub fn new(end: E, file: Option<Watched<W>>, first: u32) -> Self
        requires { first ≤ LAST_START }
        ensures end { result.end ≡ end }
        ensures file { result.file ≡ file }
        ensures first { result.first ≡ first }
    {
        Captured { end, file, first }
    }

    /// The end, captured no more.
    pub fn into_end(self) -> E
    where
        W: Drop,
        ensures { result ≡ self.end }
    {
        let Captured {
            end,
            file: _,
            first: _,
        } = self;
        end
    }

    /// Whether no write of the file has failed.
    pub fn is_whole(&self) -> bool
        ensures { result ≡ is_unfaulted self.now.file }
    {
        is_whole(&self.file)
    }
}

impl<L: Course, E: End<L>, W: Write> End<L> for Captured<E, W> {
    ghost use Rattle.bx_capture.specs.Ends.{IsEndCaptured};

    ghost day = { λ c. E.day c.end };

    ghost kept = { λ c events c'. IsEndCaptured E.day E.kept L.next L.sent L.moment_of L.turn_of W.contents c events c' };

    fn hear(&mut self, message: &Octets) -> Option<Octets> {
        let second = self.first + self.end.turn();
        keep(&mut self.file, second, Direction::Received, message);
        let reply = self.end.hear(message);
        keep_reply(&mut self.file, second, &reply);
        reply
    }

    fn next_second(&mut self) -> ArrayVec<Octets, 30> {
        let sent = self.end.next_second();
        let second = self.first + self.end.reached();
        keep_sent(&mut self.file, second, &sent);
        sent
    }

    fn skip_quiet_second(&mut self) -> bool {
        self.end.skip_quiet_second()
    }

    fn reached(&self) -> u32 {
        self.end.reached()
    }

    fn turn(&self) -> u32 {
        self.end.turn()
    }

    ghost keeps_nothing = { λ c. (E.keeps_nothing c.end, captured_nothing) };

    ghost keeps_on = { λ c c1 c2 xs ys p q. (E.keeps_on c.end c1.end c2.end xs ys p.0 q.0, captured_on xs ys p.1 q.1) };
}

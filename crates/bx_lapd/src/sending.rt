//! What goes out after each row: the messages that the window has room for, or an acknowledgement.

ghost use Rattle.std.specs.Prelude.{◌≡◌, ◌+◌, ◌<◌, ◌≤◌, ◌^◌, ◌++◌, length, take, drop};
ghost use Rattle.bx_lapd.specs.Links.{numbered_frames, running, sendable, flush};

use crate::data_link::{DataLink, T200};
use crate::done::Done;
use crate::frame::Frame;
use crate::words::{Supervisory, Timer};
use bx_q931::{Octets, copied};

/// The messages as I frames with the numbers from this on.
fn send_numbered(messages: &[Octets], sent: u8, received: u8, out: &mut Done)
    requires { length out.old.frames + length messages.now ≤ 9 }
    ensures frames { out.new.frames ≡ out.old.frames ++ numbered_frames sent received messages.now }
    ensures told { out.new.told ≡ out.old.told }
{
    let mut next = sent;
    for message in messages {
        out.send(Frame::Information {
            poll: false,
            sent: next,
            received,
            message: copied(message),
        });
        next = ((u16::from(next) + 1) % 128) as u8;
    }
}

/// At most so many of the first messages.
fn prefix(messages: &[Octets], count: usize) -> &[Octets]
    ensures { result.now ≡ take count messages.now }
{
    if messages.len() <= count {
        messages
    } else {
        &messages[..count]
    }
}

/// The messages from this place on.
fn following(messages: &[Octets], place: usize) -> &[Octets]
    ensures { result.now ≡ drop place messages.now }
{
    if messages.len() <= place {
        &[]
    } else {
        &messages[place..]
    }
}

impl DataLink {
    /// The messages that the window has room for.
    fn sendable(&self) -> &[Octets]
        ensures messages { result.now ≡ sendable self.now }
        ensures few { length result.now ≤ 7 }
    {
        if !self.is_established() || self.busy {
            return &[];
        }
        let sent = usize::from(self.outstanding());
        let rest = following(self.queue.as_slice(), sent);
        prefix(rest, 7usize.saturating_sub(sent))
    }

    /// T200 is started where it does not run.
    fn run_timer(&mut self, now: u64)
        requires { now < 2 ^ 62 }
        ensures { self.new ≡ record self.old { timer = running self.old.timer now } }
    {
        match self.timer {
            Timer::T200 { .. } => {}
            Timer::Stopped | Timer::T203 { .. } => self.timer = Timer::T200 { due: now + T200 },
        }
    }

    /// What goes out after each row.
    pub(crate) fn flush(&mut self, now: u64, out: &mut Done)
        requires now { now < 2 ^ 62 }
        requires room { length out.old.frames ≤ 2 }
        ensures link { self.new ≡ (flush now self.old).link }
        ensures frames { out.new.frames ≡ out.old.frames ++ (flush now self.old).frames }
        ensures told { out.new.told ≡ out.old.told ++ (flush now self.old).told }
    {
        let messages = self.sendable();
        let count = messages.len();
        if count > 0 {
            send_numbered(messages, self.vs, self.vr, out);
            self.vs = ((u16::from(self.vs) + count as u16) % 128) as u8;
            self.owed = false;
            self.run_timer(now);
        } else if self.owed {
            self.owed = false;
            out.send(Frame::Numbered {
                kind: Supervisory::ReceiveReady,
                command: false,
                poll: false,
                received: self.vr,
            });
        }
    }
}

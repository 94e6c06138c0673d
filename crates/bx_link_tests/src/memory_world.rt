//! A world in memory: what each second brings is told beforehand.

ghost use Rattle.std.specs.Prelude.{◌≡◌};

use crate::journal::Journal;
use bx_devices::{Watched, WriteFailed};
use bx_events::LiveEvent;
use bx_frames::{
    Frame, LinkFault, Receiver, read_frame, write_end_of_turn, write_message, write_messages,
};
use bx_live::{Begin, CannotLog, Loss, World};
use bx_q931::Octets;
use std::alloc::Global;

/// How a second begins, and what the peer sends in it.
#[derive(Clone, Copy)]
pub struct Scene {
    pub begin: Begin,
    pub input: &'static [u8],
}

/// A world whose seconds are these, from the first on. No peer is there after the last of them.
#[derive(Drop)]
pub struct MemoryWorld {
    scenes: &'static [Scene],
    reader: Watched<&'static [u8]>,
    writer: Watched<Vec<u8>>,
    pub journal: Journal,
    /// How many lines are on the disk.
    pub synced: usize,
    pub syncs_left: u32,
    pub writes_left: u32,
    /// Why the last peer was dropped.
    pub lost: Option<Loss>,
    pub is_over: bool,
    /// Whether all that the peer sends in a second comes at once.
    pub is_together: bool,
    /// What was read after the last message that was taken.
    ahead: Option<Result<u32, LinkFault>>,
}

impl MemoryWorld {
    /// A world of these seconds, in which nothing fails but what is told.
    pub fn new(alloc: Global, scenes: &'static [Scene], lines: u32) -> Self {
        MemoryWorld {
            scenes,
            reader: Watched::new(&[]),
            writer: Watched::new(Vec::new(alloc)),
            journal: Journal::new(alloc, lines),
            synced: 0,
            syncs_left: 1000,
            writes_left: 1000,
            lost: None,
            is_over: false,
            is_together: false,
            ahead: None,
        }
    }

    /// What was written to peers.
    pub fn into_written(self) -> Vec<u8> {
        let MemoryWorld {
            scenes: _,
            reader: _,
            writer,
            journal: _,
            synced: _,
            syncs_left: _,
            writes_left: _,
            lost: _,
            is_over: _,
            is_together: _,
            ahead: _,
        } = self;
        writer.into_inner()
    }

    /// Takes leave to write once more.
    fn may_write(&mut self) -> bool
        ensures { self.new.journal ≡ self.old.journal }
    {
        if self.writes_left == 0 {
            return false;
        }
        self.writes_left -= 1;
        true
    }
}

impl World for MemoryWorld {
    ghost use Rattle.std.specs.Prelude.{◌≡◌, ◌++◌};
    ghost use Rattle.bx_live.specs.Acts.{logged_by};
    ghost use Rattle.bx_link_tests.specs.Marks.{events_kept, none_added, more_added};

    ghost did = { λ s acts t. events_kept t.journal.marks.items ≡ events_kept s.journal.marks.items ++ logged_by acts };

    fn begin(&mut self, second: u32) -> Begin {
        let index = second as usize;
        if index == 0 || index > self.scenes.len() {
            return Begin::Alone;
        }
        let scene = self.scenes[index - 1];
        self.ahead = None;
        self.reader = Watched::new(scene.input);
        scene.begin
    }

    fn drop_peer(&mut self, loss: Loss) {
        self.lost = Some(loss);
    }

    fn log(&mut self, event: LiveEvent<'_>) -> Result<(), CannotLog> {
        self.journal.add(event)
    }

    fn sync(&mut self) -> Result<(), CannotLog> {
        if self.syncs_left == 0 {
            return Err(CannotLog);
        }
        self.syncs_left -= 1;
        self.synced = self.journal.marks.len();
        Ok(())
    }

    fn write_turn(&mut self, sent: &[Octets], moment: u32) -> Result<(), WriteFailed> {
        if !self.may_write() {
            return Err(WriteFailed);
        }
        write_messages(&mut self.writer, sent)?;
        write_end_of_turn(&mut self.writer, moment)
    }

    fn write_message(&mut self, message: &Octets) -> Result<(), WriteFailed> {
        if !self.may_write() {
            return Err(WriteFailed);
        }
        write_message(&mut self.writer, message)
    }

    fn read(&mut self, room: u32) -> Result<Frame, LinkFault> {
        match self.ahead {
            Some(Ok(said)) => Ok(Frame::EndOfTurn(said)),
            Some(Err(fault)) => Err(fault),
            None => read_frame(&mut self.reader, Receiver::Exchange, room),
        }
    }

    fn take_waiting(&mut self) -> Option<Octets> {
        if !self.is_together {
            return None;
        }
        match read_frame(&mut self.reader, Receiver::Exchange, 1) {
            Ok(Frame::Message(octets)) => Some(octets),
            Ok(Frame::EndOfTurn(said)) => {
                self.ahead = Some(Ok(said));
                None
            }
            Ok(Frame::EndOfDay) => {
                self.ahead = Some(Err(LinkFault::UnknownKind));
                None
            }
            Err(fault) => {
                self.ahead = Some(Err(fault));
                None
            }
        }
    }

    fn end_day(&mut self) {
        self.is_over = true;
    }

    ghost did_nothing = { λ s. none_added (events_kept s.journal.marks.items) };

    ghost did_more = { λ s t u xs ys p q.
        more_added (events_kept s.journal.marks.items) (events_kept t.journal.marks.items) (events_kept u.journal.marks.items) xs ys p q };
}

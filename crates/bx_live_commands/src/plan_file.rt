//! The plan of a live day under its name, while the day runs.

ghost use Rattle.std.specs.Prelude.{◌≡◌};

use crate::door_watch::DoorWatch;
use bx_devices::WriteFailed;
use bx_events::{Amendment, LiveEvent};
use bx_frames::{Frame, LinkFault};
use bx_live::{Begin, CannotLog, Loss, World};
use bx_office_door::Lends;
use bx_q931::Octets;
use std::fs;
use std::fs::Files;
use std::os::unix::fs::MetadataExt;
use std::str::from_utf8;

/// What is seen of a file without reading it: where it stands, its length, and when it was changed.
#[derive(Clone, Copy, PartialEq, Eq)]
struct Mark {
    device: u64,
    inode: u64,
    length: u64,
    seconds: i64,
    nanoseconds: i64,
}

/// What is seen of the file of this name. None of what is no plain file, as standard input.
fn mark_of<H: Files>(rt: &H, name: &str) -> Option<Mark> {
    let file = fs::metadata(rt, name).ok()?;
    if name == "-" || !file.is_file() {
        return None;
    }
    Some(Mark {
        device: file.dev(),
        inode: file.ino(),
        length: file.len(),
        seconds: file.mtime(),
        nanoseconds: file.mtime_nsec(),
    })
}

/// The name of a plan, and what was seen of its file before it was read.
#[derive(Clone, Copy)]
pub struct PlanFile<'a> {
    name: &'a str,
    mark: Option<Mark>,
}

impl<'a> PlanFile<'a> {
    /// What is seen now of the file of this name.
    pub fn seen<H: Files>(rt: &H, name: &'a str) -> Self {
        PlanFile {
            name,
            mark: mark_of(rt, name),
        }
    }

    /// Whether something was seen of it, and something else, or nothing, is seen now.
    fn is_other<H: Files>(self, rt: &H) -> bool {
        self.mark.is_some() && self.mark != mark_of(rt, self.name)
    }
}

/// A world that looks in each second that begins whether the plan of its day still stands as it was, and tells once on standard error where
/// it does not: the day goes by the plan that was read. It tells which channel is lost and left, and which booking is given up for want of
/// one. Where an office is open it tells at most once a minute that no file descriptor is left for whoever waits there. What standard error
/// does with it changes nothing.
#[derive(Drop)]
pub(crate) struct PlanWatched<'a, 'h, W, H, S> {
    pub(crate) world: W,
    pub(crate) rt: &'h H,
    /// None once it was told.
    pub(crate) plan: Option<PlanFile<'a>>,
    /// The door of the office, where one is open.
    pub(crate) door: Option<DoorWatch<S>>,
    pub(crate) is_shown: bool,
}

impl<'a, 'h, W, H: Files + Eprint, S: Lends> PlanWatched<'a, 'h, W, H, S> {
    /// Begins a line, where the moment stands on the one before.
    fn clear(&self) {
        if self.is_shown {
            let _ = eprint!(self.rt; "\r");
        }
    }

    /// Tells that no file descriptor is left for whoever waits at the door, where that is to be told now.
    fn look_at_door(&mut self)
        ensures { self.new.world ≡ self.old.world }
    {
        let Some(door) = &mut self.door else {
            return;
        };
        if !door.has_news() {
            return;
        }
        self.clear();
        let _ = eprintln!(self.rt;
            "note: no file descriptor is left: whoever asks at the office waits"
        );
    }

    /// Tells that a channel is lost, or that a booking is given up for want of one, where that was logged.
    fn tell(&self, event: LiveEvent<'_>) {
        let LiveEvent::Amended(kind, line) = event else {
            return;
        };
        let Ok(number) = from_utf8(line) else {
            return;
        };
        match kind {
            Amendment::Out => {
                self.clear();
                let _ = eprintln!(self.rt;
                    "note: channel {number} is in maintenance: what waits for its start leaves it"
                );
            }
            Amendment::Dropped => {
                self.clear();
                let _ = eprintln!(self.rt;
                    "note: the booking of row {number} is given up: no channel is left for it"
                );
            }
            _ => {}
        }
    }

    /// Tells that the plan is another, where that is new.
    fn look(&mut self)
        ensures { self.new.world ≡ self.old.world }
    {
        let Some(plan) = self.plan else {
            return;
        };
        if !plan.is_other(self.rt) {
            return;
        }
        self.plan = None;
        self.clear();
        let name = plan.name;
        let _ = eprintln!(self.rt;
            "note: {name} was changed: the day goes by the plan that was read"
        );
    }
}

impl<'a, 'h, W: World, H: Files + Eprint, S: Lends> World for PlanWatched<'a, 'h, W, H, S> {
    ghost did = { λ s acts t. W.did s.world acts t.world };

    fn begin(&mut self, second: u32) -> Begin {
        let begin = self.world.begin(second);
        self.look();
        self.look_at_door();
        begin
    }

    fn drop_peer(&mut self, loss: Loss) {
        self.world.drop_peer(loss);
    }

    fn log(&mut self, event: LiveEvent<'_>) -> Result<(), CannotLog> {
        self.world.log(event)?;
        self.tell(event);
        Ok(())
    }

    fn sync(&mut self) -> Result<(), CannotLog> {
        self.world.sync()
    }

    fn write_turn(&mut self, sent: &[Octets], moment: u32) -> Result<(), WriteFailed> {
        self.world.write_turn(sent, moment)
    }

    fn write_message(&mut self, message: &Octets) -> Result<(), WriteFailed> {
        self.world.write_message(message)
    }

    fn read(&mut self, room: u32) -> Result<Frame, LinkFault> {
        self.world.read(room)
    }

    fn take_waiting(&mut self) -> Option<Octets> {
        self.world.take_waiting()
    }

    fn end_day(&mut self) {
        self.world.end_day();
    }

    ghost did_nothing = { λ s. W.did_nothing s.world };

    ghost did_more = { λ s t u xs ys p q. W.did_more s.world t.world u.world xs ys p q };
}

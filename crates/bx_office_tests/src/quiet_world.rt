//! A world with no journal and no wire, which attends a door while it waits for a second, by a clock of its own.

use bx_cases::messages::FAR_RELEASE_COMPLETE_17;
use bx_devices::WriteFailed;
use bx_events::LiveEvent;
use bx_frames::{Frame, LinkFault};
use bx_live::{Begin, CannotLog, Loss, World};
use bx_office_door::{Lends, SharedDoor};
use bx_q931::Octets;

/// A second, in nanoseconds.
const SECOND: u128 = 1_000_000_000;

/// A world that attends this door.
#[derive(Drop)]
pub struct QuietWorld {
    door: SharedDoor,
    /// How many seconds a second of the day lasts for the clients.
    pace: u32,
    now: u128,
    /// How each second begins.
    pub begin: Begin,
    /// Whether a call is cleared once by the far end, with cause 17.
    pub is_cleared: bool,
    moment: u32,
    /// How many bookings were logged.
    pub sold: u32,
    /// How many were logged when it was brought to the disk last.
    pub synced: u32,
}

impl QuietWorld {
    /// A world in which nothing has happened.
    pub fn new(door: SharedDoor, pace: u32) -> Self {
        QuietWorld {
            door,
            pace,
            now: 0,
            begin: Begin::Alone,
            is_cleared: false,
            moment: 0,
            sold: 0,
            synced: 0,
        }
    }

    /// Moves what is ready at the door.
    fn attend(&mut self) {
        if let Some(mut door) = self.door.take() {
            for _turn in 0..100u32 {
                door.attend(self.now, false);
            }
            self.door.put_back(door);
        }
    }
}

impl World for QuietWorld {
    ghost did = { λ s acts t. Unit {0} };

    fn begin(&mut self, second: u32) -> Begin {
        self.now = self.now.saturating_add(SECOND * u128::from(self.pace));
        self.moment = second;
        self.attend();
        self.begin
    }

    fn drop_peer(&mut self, _loss: Loss) {}

    fn log(&mut self, event: LiveEvent<'_>) -> Result<(), CannotLog> {
        if let LiveEvent::Amended(_, _) = event {
            self.sold = self.sold.saturating_add(1);
        }
        Ok(())
    }

    fn sync(&mut self) -> Result<(), CannotLog> {
        self.synced = self.sold;
        Ok(())
    }

    fn write_turn(&mut self, _sent: &[Octets], _moment: u32) -> Result<(), WriteFailed> {
        Ok(())
    }

    fn write_message(&mut self, _message: &Octets) -> Result<(), WriteFailed> {
        Ok(())
    }

    fn read(&mut self, room: u32) -> Result<Frame, LinkFault> {
        if room == 0 {
            return Ok(Frame::EndOfTurn(self.moment));
        }
        if !self.is_cleared {
            return Ok(Frame::EndOfTurn(self.moment));
        }
        self.is_cleared = false;
        let mut message = Octets::new();
        match message.try_extend_from_slice(FAR_RELEASE_COMPLETE_17) {
            Ok(()) => Ok(Frame::Message(message)),
            Err(_) => Err(LinkFault::BadLength),
        }
    }

    fn take_waiting(&mut self) -> Option<Octets> {
        None
    }

    fn end_day(&mut self) {}

    ghost did_nothing = { λ s. tt };

    ghost did_more = { λ s t u xs ys p q. tt };
}

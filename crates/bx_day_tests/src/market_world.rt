//! A world in which one customer asks for one batch of bookings, and for one change at most behind it, and no second begins.

use arrayvec::ArrayVec;
use bx_base::Bookings;
use bx_day::Exchange;
use bx_devices::WriteFailed;
use bx_events::LiveEvent;
use bx_frames::{Frame, LinkFault};
use bx_live::{Begin, CannotLog, Loss, World};
use bx_market::{Answer, Batch, Market, Request};
use bx_q931::Octets;
use bx_sales::NoChange;

/// What a customer has seen of a batch, and of a change.
#[derive(Drop)]
pub struct MarketWorld {
    batch: Option<Bookings>,
    change: Option<Request>,
    /// How many lines that amend the plan were logged, and how many of them were on the disk when the customer was told.
    pub logged: usize,
    pub synced: usize,
    pub told: ArrayVec<Answer, 8>,
    pub changed: Option<Result<(), NoChange>>,
}

impl MarketWorld {
    /// A world whose customer asks for these, and then for a change, where there is one.
    pub fn new(batch: Bookings, change: Option<Request>) -> Self {
        MarketWorld {
            batch: Some(batch),
            change,
            logged: 0,
            synced: 0,
            told: ArrayVec::new(),
            changed: None,
        }
    }
}

impl World for MarketWorld {
    ghost did = { λ s acts t. Unit {0} };

    fn begin(&mut self, _second: u32) -> Begin {
        Begin::Ended
    }

    fn drop_peer(&mut self, _loss: Loss) {}

    fn log(&mut self, event: LiveEvent<'_>) -> Result<(), CannotLog> {
        if let LiveEvent::Amended(_, _) = event {
            self.logged = self.logged.saturating_add(1);
        }
        Ok(())
    }

    fn sync(&mut self) -> Result<(), CannotLog> {
        self.synced = self.logged;
        Ok(())
    }

    fn write_turn(&mut self, _sent: &[Octets], _moment: u32) -> Result<(), WriteFailed> {
        Ok(())
    }

    fn write_message(&mut self, _message: &Octets) -> Result<(), WriteFailed> {
        Ok(())
    }

    fn read(&mut self, _room: u32) -> Result<Frame, LinkFault> {
        Err(LinkFault::UnknownKind)
    }

    fn take_waiting(&mut self) -> Option<Octets> {
        None
    }

    fn end_day(&mut self) {}

    ghost did_nothing = { λ s. tt };

    ghost did_more = { λ s t u xs ys p q. tt };
}

impl Market for MarketWorld {
    ghost dealt = { λ s deals t. Unit {0} };

    fn ask(&mut self, _exchange: &Exchange) -> Option<Request> {
        match self.batch.take() {
            Some(bookings) => Some(Request::Sell(Batch {
                tag: None,
                bookings,
            })),
            None => self.change.take(),
        }
    }

    fn answer(&mut self, answers: &[Answer]) {
        for answer in answers {
            if !self.told.is_full() {
                self.told.push(*answer);
            }
        }
    }

    fn answer_change(&mut self, answer: Result<(), NoChange>) {
        self.changed = Some(answer);
    }

    fn lost(&mut self, _exchange: &Exchange) {}

    fn moved(&mut self, _exchange: &Exchange, _is_whole: bool) {}

    ghost dealt_by = { λ s t acts p. tt };

    ghost dealt_more = { λ s t u xs ys p q. tt };
}

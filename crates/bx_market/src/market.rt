//! The world outside a live day on which bookings are sold.

ghost use Rattle.std.specs.Prelude.{◌≡◌, ◌++◌, ◌∷◌, [], List};
ghost use Rattle.bx_live.specs.Acts.{Act};
ghost use Rattle.bx_market.specs.Deals.{Deal, Asked, Answered, ToldOfChange, Lost, Moved, all_ran};

use bx_base::{Booking, Bookings};
use bx_day::Exchange;
use bx_live::World;
use bx_sales::{NoChange, NoSale, Tag};

/// What a customer is told of one booking.
#[derive(Clone, Copy, Debug, PartialEq, Eq)]
pub enum Answer {
    Accepted,
    Refused(NoSale),
}

/// Nothing is accepted unasked.
impl Default for Answer {
    fn default() -> Self
        ensures { result ≡ Answer.Refused NoSale.Memory }
    {
        Answer::Refused(NoSale::Memory)
    }
}

/// A batch of bookings that a customer asks for, and the key under which that is done, where there is one.
#[derive(Drop)]
pub struct Batch {
    pub tag: Option<Tag>,
    pub bookings: Bookings,
}

/// What a customer asks for: that a batch of bookings is sold, that the booking of a row of the day, from 1 on, is given up, or that it becomes another.
#[derive(Drop)]
pub enum Request {
    Sell(Batch),
    Cancel(u16),
    Change(u16, Booking),
}

/// A world in which customers ask for bookings, and for changes of those of the day. `dealt` says which deals may lie between two states of it.
pub trait Market: World {
    ghost dealt: { Self → List Deal → Self → Type 0 };

    /// What the next customer asks for, if one waits. It does not wait for one. It is shown the exchange between two seconds, so that those who only ask
    /// how the day stands are answered of it.
    fn ask(&mut self, exchange: &Exchange) -> Option<Request>
        ensures { dealt self.old (Asked exchange.now result ∷ []) self.new };

    /// Tells the customer of the last batch which of its bookings are accepted, in the order of its rows.
    fn answer(&mut self, answers: &[Answer])
        ensures { dealt self.old (Answered answers.now ∷ []) self.new };

    /// Tells the customer of the last change that it is done, or why it is not.
    fn answer_change(&mut self, answer: Result<(), NoChange>)
        ensures { dealt self.old (ToldOfChange answer ∷ []) self.new };

    /// Shows the exchange where a channel is lost, before what is planned on it leaves it.
    fn lost(&mut self, exchange: &Exchange)
        ensures { dealt self.old (Lost exchange.now ∷ []) self.new };

    /// Shows the exchange after that, when all that was done is on the disk; and tells whether it was done as a whole, or only as far as memory let it.
    fn moved(&mut self, exchange: &Exchange, is_whole: bool)
        ensures { dealt self.old (Moved exchange.now is_whole ∷ []) self.new };

    ghost dealt_by: { (v w : Self) (acts : List Act) → Self.did v acts w → dealt v (all_ran acts) w };

    ghost dealt_more: { (u v w : Self) (xs ys : List Deal) → dealt u xs v → dealt v ys w → dealt u (xs ++ ys) w };
}

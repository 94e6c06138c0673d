//! A day without an office: it has no customers.

ghost use Rattle.std.specs.Prelude.{◌≡◌};

use bx_day::{Exchange, GivenUp};
use bx_devices::WriteFailed;
use bx_events::LiveEvent;
use bx_frames::{Frame, LinkFault};
use bx_live::{Begin, CannotLog, Loss, World};
use bx_market::{Answer, Market, Request};
use bx_q931::Octets;
use bx_sales::{NoChange, note_event};

/// A world of a live day on which nobody asks for a booking, or for a change of one, and how bookings were given up: before, and for want
/// of a channel.
#[derive(Drop)]
pub(crate) struct Unattended<W> {
    pub(crate) world: W,
    pub(crate) given_up: Vec<Option<GivenUp>>,
}

impl<W: World> World for Unattended<W> {
    ghost use Rattle.bx_office_world.specs.GivingUp.{NotesGivenUp};
    ghost use Rattle.bx_office_world.specs.GivingUpInTurn.{nothing_noted, noted_in_turn};

    ghost did = { λ s acts t. W.did s.world acts t.world × NotesGivenUp acts s.given_up.items t.given_up.items };

    fn begin(&mut self, second: u32) -> Begin {
        self.world.begin(second)
    }

    fn drop_peer(&mut self, loss: Loss) {
        self.world.drop_peer(loss);
    }

    fn log(&mut self, event: LiveEvent<'_>) -> Result<(), CannotLog> {
        self.world.log(event)?;
        note_event(&mut self.given_up, event);
        Ok(())
    }

    fn sync(&mut self) -> Result<(), CannotLog> {
        self.world.sync()
    }

    fn write_turn(&mut self, sent: &[Octets], moment: u32) -> Result<(), WriteFailed> {
        self.world.write_turn(sent, moment)
    }

    fn write_message(&mut self, message: &Octets) -> Result<(), WriteFailed> {
        self.world.write_message(message)
    }

    fn read(&mut self, room: u32) -> Result<Frame, LinkFault> {
        self.world.read(room)
    }

    fn take_waiting(&mut self) -> Option<Octets> {
        self.world.take_waiting()
    }

    fn end_day(&mut self) {
        self.world.end_day();
    }

    ghost did_nothing = { λ s. (W.did_nothing s.world, nothing_noted s.given_up.items) };

    ghost did_more = { λ s t u xs ys p q.
        (W.did_more s.world t.world u.world xs ys p.0 q.0, noted_in_turn xs ys s.given_up.items t.given_up.items u.given_up.items p.1 q.1) };
}

impl<W: World> Market for Unattended<W> {
    ghost use Rattle.bx_live_commands.specs.Unasked.{IsUnattended};
    ghost use Rattle.bx_live_commands.specs.UnaskedDeals.{unattended_so, unattended_on};

    ghost dealt = { λ s deals t. IsUnattended W.did s.world t.world s.given_up.items t.given_up.items deals };

    fn ask(&mut self, _exchange: &Exchange) -> Option<Request> {
        None
    }

    fn answer(&mut self, _answers: &[Answer]) {}

    fn answer_change(&mut self, _answer: Result<(), NoChange>) {}

    fn lost(&mut self, _exchange: &Exchange) {}

    fn moved(&mut self, _exchange: &Exchange, _is_whole: bool) {}

    ghost dealt_by = { λ s t acts p. unattended_so W.did s.world t.world s.given_up.items t.given_up.items acts p.0 p.1 };

    ghost dealt_more = { λ s t u xs ys p q.
        unattended_on W.did W.did_more s.world t.world u.world s.given_up.items t.given_up.items u.given_up.items xs ys p q };
}

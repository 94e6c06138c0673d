//! A live day with a booking office beside it.

ghost use Rattle.std.specs.Prelude.{◌≡◌, [], None, false};
ghost use Rattle.bx_office_world.specs.Uncounted.{AreUncounted};

use crate::counter::{seen_at, serve_at, tell_changed_at, tell_sold_at};
use crate::counting::{count_drop, count_message, count_sold, seconds_since};
use crate::desk::Opened;
use crate::ledger::Ledger;
use crate::metrics::Figures;
use crate::serving::{Desk, Pending};
use bx_day::{Exchange, GivenUp};
use bx_day_chart::{DaySight, Outages};
use bx_devices::WriteFailed;
use bx_events::LiveEvent;
use bx_frames::{Frame, LinkFault};
use bx_live::{Begin, CannotLog, Loss, World};
use bx_market::{Answer, Market, Request};
use bx_office_door::Lends;
use bx_q931::Octets;
use bx_sales::{NoChange, note_event};
use std::alloc::Global;

/// A booking office: its door, what it was opened with, what was asked for under keys, and what it is at.
#[derive(Drop)]
pub struct Office<'a, S> {
    alloc: Global,
    door: S,
    desk: Desk<'a>,
    ledger: Ledger,
    pending: Option<Pending>,
    /// What the clock showed when the journal was brought to the disk last, in nanoseconds.
    synced: Option<u128>,
}

impl<'a, S> Office<'a, S> {
    /// An office that was opened with this, at this door, on a day of which these requests under keys are known, and whose bookings were
    /// given up so. Nothing was counted, and nobody was sold to.
    pub fn new(
        alloc: Global,
        door: S,
        opened: &'a Opened,
        ledger: Ledger,
        given_up: Vec<Option<GivenUp>>,
    ) -> Self
        ensures opened { result.desk.opened.now ≡ opened.now }
        ensures door { result.door ≡ door }
        ensures figures { AreUncounted result.desk.figures }
        ensures sight { (result.desk.sight.outages.spans.items ≡ []) × (result.desk.sight.is_over ≡ false) }
        ensures given_up { result.desk.given_up ≡ given_up }
        ensures ledger { result.ledger ≡ ledger }
        ensures idle { (result.pending ≡ None) × (result.synced ≡ None) }
    {
        let desk = Desk {
            opened,
            figures: Figures::new(),
            sight: DaySight {
                outages: Outages::new(alloc),
                is_over: false,
            },
            given_up,
        };
        Office {
            alloc,
            door,
            desk,
            ledger,
            pending: None,
            synced: None,
        }
    }
}

impl<'a, S: Drop> Office<'a, S> {
    /// How the bookings of the day were given up, by the numbers of their rows: before the office was opened, and as was logged since.
    pub fn into_given_up(self) -> Vec<Option<GivenUp>>
        ensures { result ≡ self.entry.desk.given_up }
    {
        let Office { desk, .. } = self;
        desk.given_up
    }
}

impl<'a, S: Lends> Office<'a, S> {
    ghost use Rattle.bx_office_world.specs.NextTaken.{IsNextTaken};

    /// Answers who waits, up to the first that asks for a sale or a change: what is wanted. Whose it is is kept.
    fn serve(&mut self, exchange: &Exchange) -> Option<Request>
        ensures next { IsNextTaken S.lent exchange.now self.old self.new result }
    {
        let alloc = self.alloc;
        match serve_at(
            alloc,
            &mut self.door,
            &self.desk,
            &mut self.ledger,
            exchange,
        ) {
            Some((pending, request)) => {
                self.pending = Some(pending);
                Some(request)
            }
            None => {
                self.pending = None;
                None
            }
        }
    }
}

/// A world of a live day with a booking office beside it. Whoever serves the world attends the door, as a wire does that has it too.
#[derive(Drop)]
pub struct OfficeWorld<'a, W, S> {
    pub world: W,
    pub office: Office<'a, S>,
}

impl<'a, W: World, S: Lends> World for OfficeWorld<'a, W, S> {
    ghost use Rattle.bx_office_world.specs.Offices.{IsLeftAlone, left_alone, left_on};
    ghost use Rattle.bx_office_world.specs.GivingUp.{NotesGivenUp};
    ghost use Rattle.bx_office_world.specs.GivingUpInTurn.{nothing_noted, noted_in_turn};

    ghost did = { λ s acts t. W.did s.world acts t.world
        × IsLeftAlone S.lent s.office t.office
        × NotesGivenUp acts s.office.desk.given_up.items t.office.desk.given_up.items };

    fn begin(&mut self, second: u32) -> Begin {
        let begin = self.world.begin(second);
        self.office.desk.note(second, begin);
        begin
    }

    fn drop_peer(&mut self, loss: Loss) {
        self.world.drop_peer(loss);
    }

    fn log(&mut self, event: LiveEvent<'_>) -> Result<(), CannotLog> {
        self.world.log(event)?;
        count_drop(&mut self.office.desk.figures, event);
        note_event(&mut self.office.desk.given_up, event);
        Ok(())
    }

    fn sync(&mut self) -> Result<(), CannotLog> {
        self.world.sync()?;
        self.office.synced = match seen_at(&mut self.office.door) {
            Some((_, shown)) => Some(shown),
            None => None,
        };
        Ok(())
    }

    fn write_turn(&mut self, sent: &[Octets], moment: u32) -> Result<(), WriteFailed> {
        self.world.write_turn(sent, moment)
    }

    fn write_message(&mut self, message: &Octets) -> Result<(), WriteFailed> {
        self.world.write_message(message)
    }

    fn read(&mut self, room: u32) -> Result<Frame, LinkFault> {
        let frame = self.world.read(room);
        if let Ok(Frame::Message(message)) = &frame {
            count_message(&mut self.office.desk.figures, message);
        }
        frame
    }

    fn take_waiting(&mut self) -> Option<Octets> {
        let message = self.world.take_waiting();
        if let Some(message) = &message {
            count_message(&mut self.office.desk.figures, message);
        }
        message
    }

    fn end_day(&mut self) {
        self.world.end_day();
    }

    ghost did_nothing = { λ s. (W.did_nothing s.world, left_alone S.lent s.office, nothing_noted s.office.desk.given_up.items) };

    ghost did_more = { λ s t u xs ys p q. (
      W.did_more s.world t.world u.world xs ys p.0 q.0,
      left_on S.lent s.office t.office u.office p.1 q.1,
      noted_in_turn xs ys s.office.desk.given_up.items t.office.desk.given_up.items u.office.desk.given_up.items p.2 q.2,
    ) };
}

impl<'a, W: World, S: Lends> Market for OfficeWorld<'a, W, S> {
    ghost use Rattle.bx_office_world.specs.Dealt.{IsDealt, dealt_so, dealt_on};

    ghost dealt = { λ s deals t. IsDealt W.did S.lent s.world t.world s.office t.office deals };

    fn ask(&mut self, exchange: &Exchange) -> Option<Request> {
        if let Some((answers, shown)) = seen_at(&mut self.office.door) {
            self.office.desk.figures.answers = answers;
            self.office.desk.figures.since_sync = seconds_since(self.office.synced, shown);
        }
        self.office.serve(exchange)
    }

    fn answer(&mut self, answers: &[Answer]) {
        let Some(Pending::Sale(selling)) = self.office.pending.take() else {
            return;
        };
        count_sold(&mut self.office.desk.figures, answers);
        let alloc = self.office.alloc;
        if selling.is_keyed {
            self.office.ledger.tell(alloc, answers);
        }
        let terms = self.office.desk.opened.terms();
        tell_sold_at(alloc, &mut self.office.door, terms, &selling, answers);
    }

    fn answer_change(&mut self, answer: Result<(), NoChange>) {
        let alloc = self.office.alloc;
        if let Some(Pending::Change(changing)) = self.office.pending.take() {
            tell_changed_at(alloc, &mut self.office.door, &changing, answer);
        }
    }

    fn lost(&mut self, _exchange: &Exchange) {}

    fn moved(&mut self, _exchange: &Exchange, _is_whole: bool) {}

    ghost dealt_by = { λ s t acts p. dealt_so W.did S.lent s.world t.world s.office t.office acts p.0 p.1 p.2 };

    ghost dealt_more = { λ s t u xs ys p q. dealt_on W.did S.lent W.did_more s.world t.world u.world s.office t.office u.office xs ys p q };
}

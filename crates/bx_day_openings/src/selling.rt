//! An exchange that follows a journal.

ghost use Rattle.std.specs.Prelude.{◌≡◌, ◌∷◌, ◌++◌, [], None, Some, IfOk, IfErr, OnOk};
ghost use Rattle.bx_events.specs.Events.{Amended};
ghost use Rattle.bx_journal.specs.Events.{logged_event};
ghost use Rattle.bx_day_openings.specs.Selling.{IsAfter, tagged_by};
ghost use Rattle.bx_sales.specs.GivenUps.{none_given_up};

use crate::amending::{AmendmentFault, amend_again};
use bx_base::ChannelSet;
use bx_day::{Exchange, GivenUp};
use bx_events::Amendment;
use bx_journal::{Follower, LoggedEvent};
use bx_sales::{Tag, none_given_up, note, tag_of};
use std::alloc::{AllocError, Global};

/// An exchange to which the events of a journal happen, and which sells, gives up and changes again what the journal says was sold, given up and
/// changed, on the channels in service. What it sends was sent before, so it goes nowhere. From the first such line on that is none of its day it stays
/// as it was there, with why. Until then it keeps of each sale under which key it was asked for, or none, and how bookings were given up, by their rows.
#[derive(Drop)]
pub struct Selling {
    alloc: Global,
    channels: ChannelSet,
    pub exchange: Exchange,
    pub fault: Option<AmendmentFault>,
    pub tags: Vec<Option<Tag>>,
    pub given_up: Vec<Option<GivenUp>>,
}

/// An exchange that has followed a journal, of each sale under which key it was asked for, or none, and how bookings were given up, by their rows.
#[derive(Drop)]
pub(crate) struct SoldDay {
    pub(crate) exchange: Exchange,
    pub(crate) tags: Vec<Option<Tag>>,
    pub(crate) given_up: Vec<Option<GivenUp>>,
}

/// Keeps under which key the booking of a line was asked for, where the line says that it was sold.
fn keep_tag(tags: &mut Vec<Option<Tag>>, kind: Amendment, line: &[u8]) -> Result<(), AllocError>
    ensures { OnOk result (tags.new.items ≡ tags.old.items ++ tagged_by kind line.now []) }
{
    match kind {
        Amendment::Sold | Amendment::SoldByRulesTwo => tags.push(tag_of(line))?,
        Amendment::Cancelled | Amendment::Changed | Amendment::Delayed => {}
        Amendment::Dropped | Amendment::Out => {}
    }
    Ok(())
}

impl Selling {
    /// An exchange that follows from now on.
    pub fn new(alloc: Global, channels: ChannelSet, exchange: Exchange) -> Result<Self, AllocError>
        ensures channels { IfOk result (λ selling. selling.channels ≡ channels) }
        ensures exchange { IfOk result (λ selling. selling.exchange ≡ exchange) }
        ensures fault { IfOk result (λ selling. selling.fault ≡ None) }
        ensures tags { IfOk result (λ selling. selling.tags.items ≡ []) }
        ensures given_up { IfOk result (λ selling. selling.given_up.items ≡ none_given_up) }
    {
        Ok(Selling {
            alloc,
            channels,
            exchange,
            fault: None,
            tags: Vec::new(alloc),
            given_up: none_given_up(alloc)?,
        })
    }

    /// The exchange, or why the first line is none that is none of its day.
    pub fn into_exchange(self) -> Result<Exchange, AmendmentFault>
        ensures whole { IfOk result (λ exchange. (self.fault ≡ None) × (exchange ≡ self.exchange)) }
        ensures stopped { IfErr result (λ fault. self.fault ≡ Some fault) }
    {
        let sold = self.into_sold()?;
        Ok(sold.exchange)
    }

    /// The same, and of each sale under which key it was asked for, and how bookings were given up.
    pub(crate) fn into_sold(self) -> Result<SoldDay, AmendmentFault>
        ensures whole { IfOk result (λ sold. (self.fault ≡ None) × (sold.exchange ≡ self.exchange) × (sold.tags ≡ self.tags)) }
        ensures given_up { IfOk result (λ sold. sold.given_up ≡ self.given_up) }
        ensures stopped { IfErr result (λ fault. self.fault ≡ Some fault) }
    {
        let Selling {
            exchange,
            fault,
            tags,
            given_up,
            ..
        } = self;
        match fault {
            None => Ok(SoldDay {
                exchange,
                tags,
                given_up,
            }),
            Some(fault) => Err(fault),
        }
    }

    /// Does again what a line says became of a booking, where nothing was wrong yet.
    fn take(&mut self, kind: Amendment, line: &[u8])
        ensures { self.old.fault ≡ None → IsAfter self.old (Amended kind line.now ∷ []) self.new }
    {
        if keep_tag(&mut self.tags, kind, line).is_err() {
            self.fault = Some(AmendmentFault::Memory);
            return;
        }
        match amend_again(self.alloc, &mut self.exchange, self.channels, kind, line) {
            Ok(()) => note(&mut self.given_up, kind, line),
            Err(fault) => self.fault = Some(fault),
        }
    }

    /// The next event happens, where nothing was wrong yet.
    fn go_on(&mut self, event: &LoggedEvent)
        ensures { self.old.fault ≡ None → IsAfter self.old (logged_event event.now ∷ []) self.new }
    {
        match event {
            LoggedEvent::Tick => {
                let _sent = self.exchange.tick();
            }
            LoggedEvent::Heard(octets) => {
                let _reply = self.exchange.receive(octets);
            }
            LoggedEvent::Down(rules) => self.exchange.second_without_link(*rules),
            LoggedEvent::Amended(kind, line) => self.take(*kind, line),
            LoggedEvent::HeardByRulesTwo(octets) => {
                let _reply = self.exchange.receive_by_rules_two(octets);
            }
        }
    }
}

impl Follower for Selling {
    ghost use Rattle.bx_day_openings.specs.Selling.{IsAfter};
    ghost use Rattle.bx_day_openings.specs.Joined.{after_nothing, after_more};

    ghost followed = { IsAfter };

    fn follow(&mut self, event: &LoggedEvent) {
        if self.fault.is_none() {
            self.go_on(event);
        }
    }

    ghost follows_none = { after_nothing };

    ghost follows_on = { after_more };
}

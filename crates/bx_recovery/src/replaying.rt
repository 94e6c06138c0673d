//! A day from a list of events.

ghost use Rattle.std.specs.Prelude.{◌≡◌, ◌++◌, ◌∷◌, [], map, OnOk, IfOk};
ghost use Rattle.bx_base.specs.Bookings.{Carries};
ghost use Rattle.bx_base.specs.Plans.{is_accepted, channel_at};
ghost use Rattle.bx_day.specs.Day.{opening};
ghost use Rattle.bx_day.specs.Run.{happens, day_after, sent_over};
ghost use Rattle.bx_calls.specs.Sending.{spelled};
ghost use Rattle.bx_events.specs.Told.{event_of};

use arrayvec::ArrayVec;
use bx_base::Plan;
use bx_day::Exchange;
use bx_events::Event;
use bx_q931::Octets;
use std::alloc::{AllocError, Global};

/// An exchange after events, and the octets of each message that it sent, in order.
#[derive(Drop)]
pub struct Replayed {
    pub exchange: Exchange,
    pub sent: Vec<Octets>,
}

/// The day of a plan over these events, from its opening. The plan's channels carry its accepted bookings, as those of a
/// checked plan do. `AllocError` where memory ran out.
pub fn replay(alloc: Global, plan: &Plan, events: &[Event<'_>]) -> Result<Replayed, AllocError>
    requires { Carries plan.now.bookings plan.now.channels (is_accepted plan.now.assigned.items) (channel_at plan.now.assigned.items) }
    ensures exchange { IfOk result (λ r. r.exchange ≡ day_after (map event_of events.now) (opening plan.now.bookings plan.now.assigned.items)) }
    ensures sent { IfOk result (λ r. r.sent.items ≡ spelled (sent_over (map event_of events.now) (opening plan.now.bookings plan.now.assigned.items))) }
{
    let mut exchange = Exchange::new(alloc, plan)?;
    let mut sent = Vec::new(alloc);
    for event in events {
        happen(&mut exchange, *event, &mut sent)?;
    }
    Ok(Replayed { exchange, sent })
}

/// An event, whose messages go after those that were sent.
fn happen(
    exchange: &mut Exchange,
    event: Event<'_>,
    sent: &mut Vec<Octets>,
) -> Result<(), AllocError>
    ensures exchange { OnOk result (exchange.new ≡ (happens exchange.old (event_of event.entry)).day) }
    ensures sent { OnOk result (sent.new.items ≡ sent.old.items ++ spelled (happens exchange.old (event_of event.entry)).sent) }
{
    match event {
        Event::Tick => keep_all(sent, exchange.tick()),
        Event::Receive(octets) => match exchange.receive(octets) {
            Some(reply) => keep(sent, reply),
            None => Ok(()),
        },
    }
}

fn keep(sent: &mut Vec<Octets>, octets: Octets) -> Result<(), AllocError>
    ensures { OnOk result (sent.new.items ≡ sent.old.items ++ octets ∷ []) }
{
    match sent.push(octets) {
        Ok(()) => Ok(()),
        Err(_) => Err(AllocError),
    }
}

fn keep_all(sent: &mut Vec<Octets>, more: ArrayVec<Octets, 30>) -> Result<(), AllocError>
    ensures { OnOk result (sent.new.items ≡ sent.old.items ++ more.items) }
{
    for octets in more {
        keep(sent, octets)?;
    }
    Ok(())
}

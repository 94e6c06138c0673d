//! A day replayed from its events.

use bx_cases::messages::{CONNECT, CONNECT_ACKNOWLEDGE, SETUP};
use bx_recovery::{Event, Replayed, replay};
use bx_worked_days::{Row, are_same, plan_of};
use std::alloc::Global;

static ROWS: [Row; 1] = [(0, 60, 1, false)];

fn replayed(alloc: Global, events: &[Event<'_>]) -> Option<Replayed> {
    let plan = plan_of(alloc, &ROWS, &[])?;
    if !plan.carried() {
        return None;
    }
    replay(alloc, &plan, events).ok()
}

/// Whether an answered call is begun, acknowledged and kept.
fn is_replayed(alloc: Global) -> Option<bool> {
    let events = [Event::Tick, Event::Receive(CONNECT), Event::Tick];
    let day = replayed(alloc, &events)?;
    let sent = are_same(day.sent.as_slice(), &[SETUP, CONNECT_ACKNOWLEDGE]);
    Some(sent && day.exchange.moment() == 2)
}

#[test]
fn replayed_day(rt: HostRuntime) {
    assert!(rt; is_replayed(rt.alloc()) == Some(true), "sent");
}

//! When a tick has something to do again.

ghost use Rattle.std.specs.Prelude.{◌≡◌};
ghost use Rattle.bx_base.specs.Bookings.{IsBooking};
ghost use Rattle.bx_day.specs.Quiet.{call_due, booking_due};

use crate::entry::{Entry, Standing};
use bx_calls::{CallState, NetCall};

/// The first tick that may do something to a booking. One that waits for its channel is looked at each time.
pub(crate) fn booking_due(entry: &Entry) -> u32
    ensures value { result ≡ booking_due entry.now entry.now.standing }
    ensures booking { IsBooking entry.now.booking }
{
    let end = entry.booking.end();
    match entry.standing {
        Standing::OnCall { call, .. } => call_due(call, end),
        Standing::Unoffered if entry.booking.is_inward() => end,
        Standing::Unoffered => entry.booking.start(),
        _ => u32::MAX,
    }
}

/// The first tick that may do something to a call, whose booking has this end.
fn call_due(call: NetCall, end: u32) -> u32
    ensures { result ≡ call_due call.state end }
{
    let due = call.due().unwrap_or(end);
    match call.state() {
        CallState::OutgoingCallProceeding => 0,
        CallState::DisconnectIndication | CallState::ReleaseRequest => due,
        _ => due.min(end),
    }
}

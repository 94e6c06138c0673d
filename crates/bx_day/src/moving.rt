//! What an event does to one booking.

ghost use Rattle.std.specs.Prelude.{◌≡◌, ◌≤◌, ◌+◌, ℕ, Bool, false};
ghost use Rattle.bx_q931.specs.Outgoing.{IsCallReference};
ghost use Rattle.bx_day.specs.Ticks.{second_at, second_by, unlinked_at};
ghost use Rattle.bx_day.specs.Outlasting.{IfTimersFit};
ghost use Rattle.bx_day.specs.Receipts.{hears};
ghost use Rattle.bx_day.specs.Moves.{activity_after, over_at, follows};
ghost use Rattle.bx_calls.specs.Said.{said_under};

use crate::entry::{Activity, Entry, Link, Moved, Standing};
use bx_calls::{CallState, NetCall, Next, Transition};
use bx_channels::Channel;
use bx_events::{LAST_MOMENT, Rules};
use bx_q931::Message;

/// The activity of a call, by whether it is Active now.
fn activity_now(activity: Activity, active: bool, moment: u32) -> Activity
    ensures { result ≡ activity_after activity active moment }
{
    match (activity, active) {
        (Activity::Never, true) => Activity::Since { from: moment },
        (Activity::Since { from }, false) => Activity::Was {
            from,
            until: moment,
        },
        (activity, _) => activity,
    }
}

/// A call that is over.
fn over(activity: Activity, moment: u32) -> Standing
    ensures { result ≡ over_at activity moment }
{
    match activity {
        Activity::Never => Standing::Unanswered,
        Activity::Since { from } => Standing::Carried {
            from,
            until: moment,
        },
        Activity::Was { from, until } => Standing::Carried { from, until },
    }
}

/// A live booking whose call took this step.
pub(crate) fn follow(step: Transition<NetCall>, activity: Activity, moment: u32) -> Moved
    ensures { result ≡ follows activity moment step }
{
    let said = step.reply;
    match step.next {
        Next::Live(call) => {
            let active = call.state() == CallState::Active;
            let activity = activity_now(activity, active, moment);
            Moved {
                standing: Standing::OnCall { call, activity },
                said,
                broken: false,
            }
        }
        Next::Over => Moved {
            standing: over(activity, moment),
            said,
            broken: false,
        },
        Next::Broken => Moved {
            standing: over(activity, moment),
            said,
            broken: true,
        },
    }
}

/// A live booking at a message of its call, whose reference and flag were compared before.
pub(crate) fn heard(standing: Standing, message: &Message<'_>, rules: Rules, moment: u32) -> Moved
    requires { moment ≤ LAST_MOMENT }
    ensures { (reference : ℕ) (flag : Bool) → result ≡ hears (said_under rules reference flag message.now) moment standing }
{
    match standing {
        Standing::OnCall { call, activity } => {
            follow(call.on_message(message, rules, moment), activity, moment)
        }
        standing => Moved {
            standing,
            said: None,
            broken: false,
        },
    }
}

/// A booking in a second to this moment; `back` says whether there was no link in the second before, `free` whether its channel was
/// neither held nor in maintenance.
pub(crate) fn second(
    entry: &Entry,
    channel: Channel,
    moment: u32,
    back: bool,
    free: bool,
    link: Link,
) -> Moved
    requires moment { moment ≤ LAST_MOMENT }
    requires row { IsCallReference entry.now.reference }
    requires channel { channel ≡ entry.now.channel }
    ensures { IfTimersFit 1 entry.now.standing (result ≡ second_by link entry.now moment back free entry.now.standing) }
{
    match link {
        Link::Up => linked(entry, channel, moment, back, free),
        Link::Down(rules) => unlinked(entry, channel, rules, moment),
    }
}

/// Without a link no timer runs, and nothing is offered.
fn unlinked(entry: &Entry, channel: Channel, rules: Rules, moment: u32) -> Moved
    requires moment { moment ≤ LAST_MOMENT }
    requires row { IsCallReference entry.now.reference }
    requires channel { channel ≡ entry.now.channel }
    ensures { IfTimersFit 1 entry.now.standing (result ≡ unlinked_at rules entry.now moment entry.now.standing) }
{
    match entry.standing {
        Standing::OnCall { call, activity } => {
            let step = call.on_seconds_unlinked(1, rules, moment, entry.booking.end());
            follow(step, activity, moment)
        }
        _ => linked(entry, channel, moment, false, false),
    }
}

/// A booking at a tick to this moment.
fn linked(entry: &Entry, channel: Channel, moment: u32, back: bool, free: bool) -> Moved
    requires moment { moment ≤ LAST_MOMENT }
    requires row { IsCallReference entry.now.reference }
    requires channel { channel ≡ entry.now.channel }
    ensures { result ≡ second_at entry.now moment back free entry.now.standing }
{
    let booking = entry.booking;
    match entry.standing {
        Standing::OnCall { call, activity } => {
            follow(call.on_second(moment, booking.end()), activity, moment)
        }
        Standing::Unoffered if booking.runs_at(moment) && !booking.is_inward() && free => {
            let (call, setup) = NetCall::offered(
                entry.reference,
                channel,
                booking.number(),
                back,
                moment,
            );
            Moved {
                standing: Standing::OnCall {
                    call,
                    activity: Activity::Never,
                },
                said: Some(setup),
                broken: false,
            }
        }
        Standing::Unoffered if booking.end() <= moment => Moved {
            standing: Standing::Missed,
            said: None,
            broken: false,
        },
        standing => Moved {
            standing,
            said: None,
            broken: false,
        },
    }
}

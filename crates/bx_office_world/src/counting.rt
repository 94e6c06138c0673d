//! What is counted while the day runs.

ghost use Rattle.std.specs.Prelude.{◌≡◌, ◌-◌, ◌/◌, min, option_map};
ghost use Rattle.bx_events.specs.Told.{live_event_of};
ghost use Rattle.bx_office_world.specs.Counting.{begin_counted, is_without_link, cleared_in, cleared, sold_in_batch, drop_counted, seconds_since};

use crate::metrics::Figures;
use bx_events::{Amendment, LiveEvent};
use bx_live::{Begin, SECOND};
use bx_market::Answer;
use bx_q931::{Kind, read};

/// Whether a second goes by without a link.
pub(crate) fn is_without_link(begin: Begin) -> bool
    ensures { result ≡ is_without_link begin }
{
    match begin {
        Begin::Alone | Begin::Late => true,
        Begin::Joined | Begin::Ended => false,
    }
}

/// Counts a second by how it begins, and keeps that.
pub(crate) fn count_begin(figures: &mut Figures, begin: Begin)
    ensures { figures.new ≡ begin_counted begin figures.old }
{
    figures.begun = Some(begin);
    match begin {
        Begin::Alone => figures.alone = figures.alone.saturating_add(1),
        Begin::Late => figures.late = figures.late.saturating_add(1),
        Begin::Joined | Begin::Ended => {}
    }
}

/// The cause with which a message clears a call, where it does so with one (ITU-T Q.931, 5.3).
fn cleared_in(octets: &[u8]) -> Option<u8>
    ensures { result ≡ cleared_in octets.now }
{
    let Ok(message) = read(octets) else {
        return None;
    };
    match message.kind() {
        Kind::Disconnect | Kind::Release | Kind::ReleaseComplete => message.cause(),
        _ => None,
    }
}

/// Counts a message by the cause with which it clears a call.
pub(crate) fn count_message(figures: &mut Figures, octets: &[u8])
    ensures { figures.new ≡ cleared (cleared_in octets.now) figures.old }
{
    if let Some(cause) = cleared_in(octets)
        && cause < 128
    {
        let count = &mut figures.clearings[cause as usize];
        *count = count.saturating_add(1);
    }
}

/// Counts what was sold of a batch.
pub(crate) fn count_sold(figures: &mut Figures, answers: &[Answer])
    ensures { figures.new ≡ record figures.old { sold = sold_in_batch figures.old.sold answers.now } }
{
    for answer in answers {
        if matches!(answer, Answer::Accepted) {
            figures.sold = figures.sold.saturating_add(1);
        }
    }
}

/// Counts a booking that is given up for want of a channel, if that is what an event tells.
pub(crate) fn count_drop(figures: &mut Figures, event: LiveEvent<'_>)
    ensures { figures.new ≡ drop_counted (live_event_of event.entry) figures.old }
{
    if let LiveEvent::Amended(Amendment::Dropped, _) = event {
        figures.dropped = figures.dropped.saturating_add(1);
    }
}

/// How many whole seconds lie between two readings of a clock, in nanoseconds, where there is the first.
pub(crate) fn seconds_since(first: Option<u128>, now: u128) -> Option<u64>
    ensures { result ≡ seconds_since first now }
{
    let seconds = now.saturating_sub(first?) / SECOND;
    Some(seconds.min(u64::MAX as u128) as u64)
}

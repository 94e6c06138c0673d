//! What comes to an end of the link and what it sends, step by step.

use bx_q931::Octets;
use bx_worked_days::{DayEnd, are_same};

/// The messages that are sent.
pub(crate) type Messages = &'static [&'static [u8]];

/// A moment, what comes (nothing: ticks to that moment, all silent but the last) and the messages that are sent.
pub(crate) type Step = (u32, &'static [u8], Messages);

/// Whether the reply is this message, or none.
pub(crate) fn is_same(reply: Option<Octets>, expected: &[&[u8]]) -> bool {
    match reply {
        Some(octets) => are_same(&[octets], expected),
        None => expected.is_empty(),
    }
}

/// Whether a tick sends just these messages.
fn ticks<E: DayEnd>(end: &mut E, expected: &[&[u8]]) -> bool {
    are_same(end.next_second().as_slice(), expected)
}

/// Whether this message, or none, is the answer to these octets.
pub(crate) fn answers<E: DayEnd>(end: &mut E, octets: &[u8], expected: &[&[u8]]) -> bool {
    is_same(end.hear(octets), expected)
}

/// Ticks to the moment, and answers whether only the last tick sends something, and just these messages.
fn ticks_to<E: DayEnd>(end: &mut E, moment: u32, expected: &[&[u8]]) -> bool {
    let mut same = true;
    for before in end.now()..moment {
        if before.saturating_add(1) < moment {
            same &= ticks(end, &[]);
        } else {
            same &= ticks(end, expected);
        }
    }
    same
}

/// Whether a step sends what it should; no tick goes beyond the last moment.
fn goes<E: DayEnd>(end: &mut E, step: &Step) -> bool {
    let same = if step.1.is_empty() {
        ticks_to(end, step.0, step.2)
    } else {
        answers(end, step.1, step.2)
    };
    same && end.now() == step.0.min(300_000)
}

/// The moment of the first step that goes otherwise.
pub(crate) fn first_wrong<E: DayEnd>(end: &mut E, steps: &[Step]) -> Option<u32> {
    for step in steps {
        if !goes(end, step) {
            return Some(step.0);
        }
    }
    None
}

/// Whether nothing is answered to one octet or to two.
pub(crate) fn are_short_ignored<E: DayEnd>(end: &mut E) -> bool {
    let mut ignored = true;
    for first in 0..=255u8 {
        ignored &= answers(end, &[first], &[]);
        for second in 0..=255u8 {
            ignored &= answers(end, &[first, second], &[]);
        }
    }
    ignored
}

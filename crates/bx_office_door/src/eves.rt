//! What there is to be said before the day begins.

ghost use Rattle.std.specs.Prelude.{◌≡◌};
ghost use Rattle.bx_office_door.specs.Eves.{seconds_until, IsEveAt};

use bx_office::Eve;

/// A second, in nanoseconds.
const SECOND: u128 = 1_000_000_000;

/// What there is to be said at this time of a day that begins then, where it has not begun.
pub(crate) fn eve_at(
    opens: u128,
    now: u128,
    is_heard: bool,
    figures: &Option<Vec<u8>>,
) -> Option<Eve<'_>>
    ensures { IsEveAt opens now is_heard figures.now result }
{
    if opens <= now {
        return None;
    }
    let figures = match figures {
        Some(text) => Some(text.as_slice()),
        None => None,
    };
    Some(Eve {
        wait: seconds_until(opens, now),
        is_heard,
        figures,
    })
}

/// How many seconds it is until then, a part of one counting as one.
fn seconds_until(opens: u128, now: u128) -> u32
    ensures { result ≡ seconds_until opens now }
{
    let seconds = opens.saturating_sub(now).div_ceil(SECOND);
    seconds.min(u32::MAX as u128) as u32
}

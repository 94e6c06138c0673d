//! What became of a booking, as a picture tells it.

ghost use Rattle.std.specs.Prelude.{◌≡◌, ◌++◌, OnOk, option_copied};
ghost use Rattle.bx_day_chart.specs.Standings.{carried_of, carried_words, look_of, standing_words, fate_words_of};

use crate::outages::add_span;
use bx_calendar::Clock;
use bx_chart::Picture;
use bx_day::{Activity, Standing};
use std::alloc::AllocError;

/// From when until when a call of it was Active, or is up to now.
pub(crate) fn carried_of(standing: &Standing, now: u32) -> Option<(u32, u32)>
    ensures { result ≡ carried_of now standing.now }
{
    match standing {
        Standing::Carried { from, until } => Some((*from, *until)),
        Standing::OnCall { activity, .. } => match activity {
            Activity::Never => None,
            Activity::Since { from } => Some((*from, now)),
            Activity::Was { from, until } => Some((*from, *until)),
        },
        _ => None,
    }
}

/// How its bar looks besides the bar of a plan.
pub(crate) fn look_of(standing: &Standing) -> &'static [u8]
    ensures { result.now ≡ look_of standing.now }
{
    match standing {
        Standing::OnCall { .. } => b" planned live",
        _ => b" planned",
    }
}

/// The word for it.
fn standing_words(standing: &Standing) -> &'static [u8]
    ensures { result.now ≡ standing_words standing.now }
{
    match standing {
        Standing::Refused => b"; refused",
        Standing::Unoffered => b"; waiting",
        Standing::OnCall { .. } => b"; live",
        Standing::Carried { .. } => b"",
        Standing::Unanswered => b"; unanswered",
        Standing::Missed => b"; missed",
    }
}

/// Adds from when until when it was carried, if it was.
fn add_carried(
    picture: &mut Picture,
    clock: Option<&Clock>,
    carried: Option<(u32, u32)>,
) -> Result<(), AllocError>
    ensures { OnOk result (picture.new.text.items ≡ picture.old.text.items ++ carried_words (option_copied clock.entry) carried) }
{
    match carried {
        Some((from, until)) => {
            picture.add(b"; carried")?;
            add_span(picture, clock, from, until)
        }
        None => Ok(()),
    }
}

/// Adds what became of it, in words.
pub(crate) fn add_told(
    picture: &mut Picture,
    clock: Option<&Clock>,
    standing: &Standing,
    now: u32,
) -> Result<(), AllocError>
    ensures { OnOk result (picture.new.text.items ≡ picture.old.text.items ++ fate_words_of (option_copied clock.entry) now standing.now) }
{
    picture.add(standing_words(standing))?;
    add_carried(picture, clock, carried_of(standing, now))
}

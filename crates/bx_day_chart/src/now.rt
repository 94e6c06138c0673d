//! The moment to which a day has come.

ghost use Rattle.std.specs.Prelude.{◌≡◌, ◌++◌, OnOk, option_copied};
ghost use Rattle.bx_chart.specs.Sheets.{room};
ghost use Rattle.bx_day_chart.specs.Now.{now_line, now_part, now_words};

use bx_calendar::Clock;
use bx_chart::{Picture, Sheet, add_tenths, add_time};
use std::alloc::AllocError;

/// Adds a line over all lanes, which end so far down.
#[tactic(auto, unfolding(crate::specs::Now::now_line))]
fn add_now_line(picture: &mut Picture, across: u64, end: u64) -> Result<(), AllocError>
    ensures { OnOk result (picture.new.text.items ≡ picture.old.text.items ++ now_line across end) }
{
    picture.add(b"<path class='now' d='M")?;
    add_tenths(picture, across)?;
    picture.add_number(b" 92V", end)?;
    picture.add(b"'/>\n")
}

/// Adds the name of a second.
#[tactic(auto, unfolding(crate::specs::Now::now_words))]
fn add_now_words(
    picture: &mut Picture,
    clock: Option<&Clock>,
    across: u64,
    down: u64,
    now: u32,
) -> Result<(), AllocError>
    ensures { OnOk result (picture.new.text.items ≡ picture.old.text.items ++ now_words (option_copied clock.entry) across down now) }
{
    picture.add(b"<text class='small middle' x='")?;
    add_tenths(picture, across)?;
    picture.add_number(b"' y='", down)?;
    picture.add(b"'>now ")?;
    add_time(picture, clock, now)?;
    picture.add(b"</text>\n")
}

/// Adds a line at this second over all lanes, and its name below them, where the day is not over.
pub(crate) fn add_now(
    picture: &mut Picture,
    clock: Option<&Clock>,
    sheet: &Sheet,
    is_over: bool,
    now: u32,
) -> Result<(), AllocError>
    ensures { OnOk result (picture.new.text.items ≡ picture.old.text.items ++ now_part (room sheet.now) (option_copied clock.entry) is_over now) }
{
    if is_over {
        return Ok(());
    }
    let across = sheet.tenths(now.min(sheet.seconds));
    add_now_line(picture, across, sheet.lanes_end())?;
    add_now_words(picture, clock, across, sheet.lanes_end() + 25, now)
}

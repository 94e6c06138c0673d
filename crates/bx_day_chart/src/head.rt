//! The head of a picture of a day, and its legend.

ghost use Rattle.std.specs.Prelude.{◌≡◌, ◌≤◌, ◌++◌, length, true, OnOk, option_copied};
ghost use Rattle.bx_base.specs.declared.bookings.TheConstants.{MAX_BOOKINGS};
ghost use Rattle.bx_chart.specs.Plain.{is_plain};
ghost use Rattle.bx_chart.specs.Sheets.{room};
ghost use Rattle.bx_day_chart.specs.Heads.{day_legend, day_opening, day_style, day_head, heading, link_words, pair, samples, so_far, tally, titled};
ghost use Rattle.bx_day_chart.specs.Sights.{sight_of};

use crate::counting::{Fate, count_of, pay_of};
use crate::outages::DaySight;
use bx_calendar::Clock;
use bx_chart::{Picture, Sheet, add_legend, add_paper, add_style, add_time, open_sized};
use bx_day::{Entry, Exchange};
use std::alloc::AllocError;

/// How each kind of thing looks that a plan's picture has not. What is only planned is dashed, what is live has a thick outline, and what was lost has a
/// stroke over it: no two kinds differ in their colours alone.
const STYLE: &[u8] = b"<style>
.planned{fill-opacity:.25;stroke-dasharray:3 2}
.live{stroke-width:2;stroke-dasharray:none}
.mark{fill:none;stroke:#222;stroke-width:1.2;vector-effect:non-scaling-stroke}
.outage{fill:#444;fill-opacity:.3;pointer-events:none}
.broken{fill:url(#broken)}
.now{fill:none;stroke:#c00;stroke-width:1.5}
</style>
<defs>
<pattern id='broken' width='6' height='6' patternUnits='userSpaceOnUse' patternTransform='rotate(45)'><rect width='2' height='6' fill='#9a7b4f'/></pattern>
</defs>
";

/// The samples of the legend of what became of a call.
const SAMPLES: &[u8] =
    b"<svg x='56' width='28' height='16' viewBox='0 0 28 10' preserveAspectRatio='none'><rect class='free out planned' x='1' y='3' width='26' height='5'/></svg><text x='90' y='13'>waiting</text>
<svg x='196' width='28' height='16' viewBox='0 0 28 10' preserveAspectRatio='none'><rect class='free out planned live' x='1' y='3' width='26' height='5'/><rect class='free out carried' x='1' y='3' width='13' height='5'/></svg><text x='230' y='13'>live</text>
<svg x='336' width='28' height='16' viewBox='0 0 28 10' preserveAspectRatio='none'><rect class='free out carried' x='1' y='3' width='26' height='5'/></svg><text x='370' y='13'>carried</text>
<svg x='476' width='28' height='16' viewBox='0 0 28 10' preserveAspectRatio='none'><rect class='free out planned' x='1' y='3' width='26' height='5'/><rect class='free out carried' x='1' y='3' width='13' height='5'/><path class='mark' d='M14 3L27 8'/></svg><text x='510' y='13'>cut short</text>
<svg x='616' width='28' height='16' viewBox='0 0 28 10' preserveAspectRatio='none'><rect class='free out planned' x='1' y='3' width='26' height='5'/><path class='mark' d='M1 8L27 3'/><path class='mark' d='M1 3L27 8'/></svg><text x='650' y='13'>unanswered</text>
<svg x='756' width='28' height='16' viewBox='0 0 28 10' preserveAspectRatio='none'><rect class='free out planned' x='1' y='3' width='26' height='5'/><path class='mark' d='M1 8L27 3'/></svg><text x='790' y='13'>missed</text>
<rect class='outage' x='896' width='28' height='16'/><text x='930' y='13'>no link</text>
<rect class='broken' x='1036' y='1' width='28' height='14'/><text x='1070' y='13'>maintenance</text>
</svg>
";

/// Adds how each kind of thing looks.
#[tactic(auto, unfolding(crate::specs::Heads::day_style))]
fn add_day_style(picture: &mut Picture) -> Result<(), AllocError>
    ensures { OnOk result (picture.new.text.items ≡ picture.old.text.items ++ day_style) }
{
    picture.add(STYLE)
}

/// Opens the whole picture, and names it.
fn open_titled(picture: &mut Picture, height: u64) -> Result<(), AllocError>
    ensures { OnOk result (picture.new.text.items ≡ picture.old.text.items ++ titled height) }
{
    open_sized(picture, height)?;
    picture.add(b"'>\n<title>A day as it went</title>\n")
}

/// Opens the picture, and adds how things look, and its paper.
fn add_opening(picture: &mut Picture, height: u64) -> Result<(), AllocError>
    ensures { OnOk result (picture.new.text.items ≡ picture.old.text.items ++ day_opening height) }
{
    open_titled(picture, height)?;
    add_style(picture)?;
    add_day_style(picture)?;
    add_paper(picture, height)
}

/// Adds two counts, each after its words.
fn add_pair(
    picture: &mut Picture,
    words: &[u8],
    count: u64,
    more: &[u8],
    second: u64,
) -> Result<(), AllocError>
    requires words { is_plain words.now ≡ true }
    requires more { is_plain more.now ≡ true }
    ensures { OnOk result (picture.new.text.items ≡ picture.old.text.items ++ pair words.now count more.now second) }
{
    picture.add_number(words, count)?;
    picture.add_number(more, second)
}

/// Adds as far as when the day has come, where it is not over.
fn add_so_far(
    picture: &mut Picture,
    clock: Option<&Clock>,
    is_over: bool,
    now: u32,
) -> Result<(), AllocError>
    ensures { OnOk result (picture.new.text.items ≡ picture.old.text.items ++ so_far (option_copied clock.entry) is_over now) }
{
    if is_over {
        return Ok(());
    }
    picture.add(b", as far as ")?;
    add_time(picture, clock, now)
}

/// Adds what carried calls pay, and of how much.
fn add_heading(
    picture: &mut Picture,
    entries: &[Entry],
    clock: Option<&Clock>,
    is_over: bool,
    now: u32,
) -> Result<(), AllocError>
    requires { length entries.now ≤ MAX_BOOKINGS }
    ensures { OnOk result (picture.new.text.items ≡ picture.old.text.items ++ heading entries.now (option_copied clock.entry) is_over now) }
{
    let paid = pay_of(Fate::Carried, entries);
    let promised = pay_of(Fate::Accepted, entries);
    add_pair(
        picture,
        b"<text class='head' x='56' y='26'>Paid ",
        paid,
        b" of ",
        promised,
    )?;
    add_so_far(picture, clock, is_over, now)?;
    picture.add(b"</text>\n")
}

/// Adds how many calls have become what.
fn add_tally(picture: &mut Picture, entries: &[Entry]) -> Result<(), AllocError>
    requires { length entries.now ≤ MAX_BOOKINGS }
    ensures { OnOk result (picture.new.text.items ≡ picture.old.text.items ++ tally entries.now) }
{
    let carried = count_of(Fate::Carried, entries);
    let accepted = count_of(Fate::Accepted, entries);
    let live = count_of(Fate::Live, entries);
    let waiting = count_of(Fate::Waiting, entries);
    let unanswered = count_of(Fate::Unanswered, entries);
    let missed = count_of(Fate::Missed, entries);
    add_pair(picture, b"<text x='56' y='46'>", carried, b" of ", accepted)?;
    add_pair(picture, b" calls carried, ", live, b" live, ", waiting)?;
    add_pair(picture, b" waiting, ", unanswered, b" unanswered, ", missed)
}

/// Adds how many outages there were.
fn add_link_words(picture: &mut Picture, outages: u64) -> Result<(), AllocError>
    ensures { OnOk result (picture.new.text.items ≡ picture.old.text.items ++ link_words outages) }
{
    picture.add_number(b" missed; outages of the link: ", outages)?;
    picture.add(b"</text>\n")
}

/// Adds all that stands above the lanes.
pub(crate) fn add_head(
    picture: &mut Picture,
    exchange: &Exchange,
    sight: &DaySight,
    clock: Option<&Clock>,
    sheet: &Sheet,
) -> Result<(), AllocError>
    ensures { OnOk result (picture.new.text.items ≡ picture.old.text.items
        ++ day_head exchange.now (sight_of sight.now) (option_copied clock.entry) (room sheet.now)) }
{
    let now = exchange.moment();
    let entries = exchange.entries();
    add_opening(picture, sheet.height())?;
    add_heading(picture, entries, clock, sight.is_over, now)?;
    add_tally(picture, entries)?;
    add_link_words(picture, sight.outages.spans.len() as u64)?;
    add_legend(picture)
}

/// Adds the samples of that legend.
#[tactic(auto, unfolding(crate::specs::Heads::samples))]
fn add_samples(picture: &mut Picture) -> Result<(), AllocError>
    ensures { OnOk result (picture.new.text.items ≡ picture.old.text.items ++ samples) }
{
    picture.add(SAMPLES)
}

/// Adds the legend of what became of a call, so far down.
pub(crate) fn add_day_legend(picture: &mut Picture, down: u64) -> Result<(), AllocError>
    ensures { OnOk result (picture.new.text.items ≡ picture.old.text.items ++ day_legend down) }
{
    picture.add_number(b"<svg y='", down)?;
    picture.add(b"' width='1200' height='20'>\n")?;
    add_samples(picture)
}

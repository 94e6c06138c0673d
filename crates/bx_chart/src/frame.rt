//! What stands round the bars: the head of the picture, its legend, and the lanes.

ghost use Rattle.std.specs.Prelude.{◌≡◌, ◌++◌, ◌+◌, ◌*◌, ◌≤◌, length, IfOk, OnOk};
ghost use Rattle.bx_base.specs.Channels.{count_of};
ghost use Rattle.bx_base.specs.PlanParts.{parts_of};
ghost use Rattle.bx_chart.specs.Frames.{accepted_below, accepted_words, counts, day_box, day_units, front, gain_words, head, lane, lane_box, lane_name, lanes_below, legend, must_below, must_words, chart_opened, opened_day, paper, row_words, service_words, sized, style, total_words};
ghost use Rattle.bx_chart.specs.Sheets.{room};

use crate::bars::is_in_service;
use crate::picture::Picture;
use crate::sheet::{LANE, Sheet, TOP};
use bx_base::{ChannelSet, Plan};
use std::alloc::{AllocError, Global};

/// How each kind of thing looks. The must bars are taller too, and the inward ones have a stripe: no two kinds differ in
/// their colours alone.
const STYLE: &[u8] = b"<style>
text{font:12px sans-serif;fill:#222}
.head{font-size:18px;font-weight:bold}
.small{font-size:10px;fill:#555}
.right{text-anchor:end}
.middle{text-anchor:middle}
.lane{fill:#eef1f4}
.hour{stroke:#b9c2cb;stroke-width:.6}
.free,.must{stroke:#16456e;stroke-width:.6;vector-effect:non-scaling-stroke}
.must{stroke:#4a2500}
.free.out{fill:#a5cdf0}
.free.in{fill:url(#free)}
.must.out{fill:#f5a742}
.must.in{fill:url(#must)}
.start{fill:none;stroke:#fff;stroke-width:.7}
.refused{fill:#b5538a}
.prices{fill:#5b9a68}
.edge{fill:none;stroke:#7a8691;stroke-width:.8}
</style>
<defs>
<linearGradient id='free' x1='0' y1='0' x2='0' y2='1'><stop offset='.38' stop-color='#a5cdf0'/><stop offset='.38' stop-color='#16456e'/><stop offset='.62' stop-color='#16456e'/><stop offset='.62' stop-color='#a5cdf0'/></linearGradient>
<linearGradient id='must' x1='0' y1='0' x2='0' y2='1'><stop offset='.38' stop-color='#f5a742'/><stop offset='.38' stop-color='#4a2500'/><stop offset='.62' stop-color='#4a2500'/><stop offset='.62' stop-color='#f5a742'/></linearGradient>
</defs>
";

/// The samples of the legend.
const LEGEND: &[u8] =
    b"<svg x='56' y='56' width='28' height='16' viewBox='0 0 28 10' preserveAspectRatio='none'><rect class='must out' x='1' y='1' width='26' height='9'/></svg><text x='90' y='69'>must, outward</text>
<svg x='196' y='56' width='28' height='16' viewBox='0 0 28 10' preserveAspectRatio='none'><rect class='must in' x='1' y='1' width='26' height='9'/></svg><text x='230' y='69'>must, inward</text>
<svg x='336' y='56' width='28' height='16' viewBox='0 0 28 10' preserveAspectRatio='none'><rect class='free out' x='1' y='3' width='26' height='5'/></svg><text x='370' y='69'>free, outward</text>
<svg x='476' y='56' width='28' height='16' viewBox='0 0 28 10' preserveAspectRatio='none'><rect class='free in' x='1' y='3' width='26' height='5'/></svg><text x='510' y='69'>free, inward</text>
";

/// What stands before the gain of one more channel: the total and the counts.
pub(crate) fn head(alloc: Global, plan: &Plan, sheet: &Sheet) -> Result<Picture, AllocError>
    ensures { IfOk result (λ picture. picture.text.items ≡ head (parts_of plan.now) (room sheet.now)) }
{
    let mut picture = Picture::new(alloc);
    open(&mut picture, sheet.height())?;
    add_style(&mut picture)?;
    add_paper(&mut picture, sheet.height())?;
    add_counts(&mut picture, plan)?;
    Ok(picture)
}

/// Opens the whole picture, so high, and names it.
fn open(picture: &mut Picture, height: u64) -> Result<(), AllocError>
    ensures { OnOk result (picture.new.text.items ≡ picture.old.text.items ++ chart_opened height) }
{
    open_sized(picture, height)?;
    picture.add(b"'>\n<title>The plan of a day</title>\n")
}

/// Opens its element.
pub fn open_sized(picture: &mut Picture, height: u64) -> Result<(), AllocError>
    ensures { OnOk result (picture.new.text.items ≡ picture.old.text.items ++ sized height) }
{
    picture.add_number(
        b"<svg xmlns='http://www.w3.org/2000/svg' version='1.1' width='1200' height='",
        height,
    )?;
    picture.add_number(b"' viewBox='0 0 1200 ", height)
}

/// Adds how each kind of thing looks.
#[tactic(auto, unfolding(crate::specs::Frames::style))]
pub fn add_style(picture: &mut Picture) -> Result<(), AllocError>
    ensures { OnOk result (picture.new.text.items ≡ picture.old.text.items ++ style) }
{
    picture.add(STYLE)
}

/// Adds the paper, so high.
pub fn add_paper(picture: &mut Picture, height: u64) -> Result<(), AllocError>
    ensures { OnOk result (picture.new.text.items ≡ picture.old.text.items ++ paper height) }
{
    picture.add_number(b"<rect width='1200' height='", height)?;
    picture.add(b"' fill='#fff'/>\n")
}

/// Adds what one more channel would add, in words.
pub(crate) fn add_gain(picture: &mut Picture, gain: u64) -> Result<(), AllocError>
    ensures { OnOk result (picture.new.text.items ≡ picture.old.text.items ++ gain_words gain) }
{
    picture.add_number(b"; one more channel would add ", gain)?;
    picture.add(b"</text>\n")
}

/// What stands between that gain and the bars.
pub(crate) fn front(alloc: Global, plan: &Plan, sheet: &Sheet) -> Result<Picture, AllocError>
    ensures { IfOk result (λ picture. picture.text.items ≡ front (parts_of plan.now) (room sheet.now)) }
{
    let mut picture = Picture::new(alloc);
    add_legend(&mut picture)?;
    add_lanes(&mut picture, &plan.channels)?;
    open_day(&mut picture, sheet)?;
    Ok(picture)
}

/// Adds the samples of the legend.
#[tactic(auto, unfolding(crate::specs::Frames::legend))]
pub fn add_legend(picture: &mut Picture) -> Result<(), AllocError>
    ensures { OnOk result (picture.new.text.items ≡ picture.old.text.items ++ legend) }
{
    picture.add(LEGEND)
}

/// How many rows are accepted.
fn accepted_of(plan: &Plan) -> u16
    ensures value { result ≡ accepted_below (parts_of plan.now) (length plan.now.bookings) }
    ensures limit { result ≤ length plan.now.bookings }
{
    let mut accepted = 0;
    for index in 0..plan.bookings.len() {
        if plan.assigned[index as usize].is_some() {
            accepted += 1;
        }
    }
    accepted
}

/// How many of these are must.
fn must_of(plan: &Plan) -> u16
    ensures { result ≡ must_below (parts_of plan.now) (length plan.now.bookings) }
{
    let mut must = 0;
    for index in 0..plan.bookings.len() {
        if plan.assigned[index as usize].is_some() && plan.bookings.nth(index).is_must() {
            must += 1;
        }
    }
    must
}

/// Adds the total and the counts.
fn add_counts(picture: &mut Picture, plan: &Plan) -> Result<(), AllocError>
    ensures { OnOk result (picture.new.text.items ≡ picture.old.text.items ++ counts (parts_of plan.now)) }
{
    add_total(picture, plan.total)?;
    add_rows(
        picture,
        accepted_of(plan),
        plan.bookings.len(),
        must_of(plan),
    )?;
    add_service(picture, u64::from(plan.channels.count()))
}

/// Adds how many channels are in service.
fn add_service(picture: &mut Picture, count: u64) -> Result<(), AllocError>
    ensures { OnOk result (picture.new.text.items ≡ picture.old.text.items ++ service_words count) }
{
    picture.add_number(b" refused; channels in service: ", count)
}

/// Adds the total, in words.
fn add_total(picture: &mut Picture, total: u64) -> Result<(), AllocError>
    ensures { OnOk result (picture.new.text.items ≡ picture.old.text.items ++ total_words total) }
{
    picture.add_number(b"<text class='head' x='56' y='26'>Total ", total)?;
    picture.add(b"</text>\n")
}

/// Adds how many rows are accepted, of how many, how many of those are must, and how many are refused.
fn add_rows(picture: &mut Picture, accepted: u16, rows: u16, must: u16) -> Result<(), AllocError>
    requires { accepted ≤ rows }
    ensures { OnOk result (picture.new.text.items ≡ picture.old.text.items ++ row_words accepted rows must) }
{
    add_accepted(picture, u64::from(accepted), u64::from(rows))?;
    add_must(picture, u64::from(must), u64::from(rows - accepted))
}

/// Adds how many rows are accepted, and of how many.
fn add_accepted(picture: &mut Picture, accepted: u64, rows: u64) -> Result<(), AllocError>
    ensures { OnOk result (picture.new.text.items ≡ picture.old.text.items ++ accepted_words accepted rows) }
{
    picture.add_number(b"<text x='56' y='46'>", accepted)?;
    picture.add_number(b" of ", rows)
}

/// Adds how many are must, and how many are refused.
fn add_must(picture: &mut Picture, must: u64, refused: u64) -> Result<(), AllocError>
    ensures { OnOk result (picture.new.text.items ≡ picture.old.text.items ++ must_words must refused) }
{
    picture.add_number(b" calls accepted, ", must)?;
    picture.add_number(b" of them must; ", refused)
}

/// Adds a lane for each channel in service, with its number.
pub fn add_lanes(picture: &mut Picture, channels: &ChannelSet) -> Result<(), AllocError>
    ensures { OnOk result (picture.new.text.items ≡ picture.old.text.items ++ lanes_below channels.now 32) }
{
    let mut top = TOP;
    for number in 0..32u8 {
        if is_in_service(channels, number) {
            add_lane(picture, number, top)?;
            top += LANE;
        }
    }
    Ok(())
}

/// Adds the lane of a channel, so many down, and its number.
fn add_lane(picture: &mut Picture, number: u8, top: u64) -> Result<(), AllocError>
    requires { top ≤ 1000 }
    ensures { OnOk result (picture.new.text.items ≡ picture.old.text.items ++ lane number top) }
{
    add_lane_box(picture, top + 1)?;
    add_lane_name(picture, top + 12, u64::from(number))
}

/// Adds the box of a lane, so many down.
fn add_lane_box(picture: &mut Picture, down: u64) -> Result<(), AllocError>
    ensures { OnOk result (picture.new.text.items ≡ picture.old.text.items ++ lane_box down) }
{
    picture.add_number(b"<rect class='lane' x='56' y='", down)?;
    picture.add(b"' width='1120' height='14'/>")
}

/// Adds the number of a lane, so many down.
fn add_lane_name(picture: &mut Picture, down: u64, number: u64) -> Result<(), AllocError>
    ensures { OnOk result (picture.new.text.items ≡ picture.old.text.items ++ lane_name down number) }
{
    picture.add_number(b"<text class='small right' x='50' y='", down)?;
    picture.add_number(b"'>", number)?;
    picture.add(b"</text>\n")
}

/// Opens the part whose units are the seconds of the day and tenths of lanes.
pub fn open_day(picture: &mut Picture, sheet: &Sheet) -> Result<(), AllocError>
    ensures { OnOk result (picture.new.text.items ≡ picture.old.text.items ++ opened_day (room sheet.now)) }
{
    let lanes = u64::from(sheet.lanes);
    open_day_box(picture, LANE * lanes)?;
    add_day_units(picture, u64::from(sheet.seconds), 10 * lanes)
}

/// Opens that element, so high.
fn open_day_box(picture: &mut Picture, height: u64) -> Result<(), AllocError>
    ensures { OnOk result (picture.new.text.items ≡ picture.old.text.items ++ day_box height) }
{
    picture.add_number(b"<svg x='56' y='92' width='1120' height='", height)
}

/// Adds how many units wide and high it is.
fn add_day_units(picture: &mut Picture, wide: u64, high: u64) -> Result<(), AllocError>
    ensures { OnOk result (picture.new.text.items ≡ picture.old.text.items ++ day_units wide high) }
{
    picture.add_number(b"' viewBox='0 0 ", wide)?;
    picture.add_number(b" ", high)?;
    picture.add(b"' preserveAspectRatio='none'>\n")
}

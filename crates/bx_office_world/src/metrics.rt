//! The figures of the day that runs, as OpenMetrics.

ghost use Rattle.std.specs.Prelude.{◌≡◌, ◌++◌, ◌≤◌, length, replicate, codes, IfOk, IfErr, OnOk};
ghost use Rattle.bx_base.specs.declared.bookings.TheConstants.{MAX_BOOKINGS};
ghost use Rattle.bx_records.specs.Totals.{how_many, pays_of};
ghost use Rattle.bx_office_world.specs.Tallies.{is_such};
ghost use Rattle.bx_office_world.specs.Metrics.{word_of, sample, family_text, bookings_text, pays_text, rows_left_text, maintenance_text, link_text, cause_line, clearing_line, clearings_text, office_text, sync_text, day_text, figures_text, metrics_text};

use crate::fault::NoAnswer;
use crate::maintenance::maintained;
use crate::tallies::{Became, tally_of};
use bx_base::MAX_BOOKINGS;
use bx_day::{Entry, Exchange};
use bx_live::Begin;
use bx_text::append_decimal;
use std::alloc::{AllocError, Global};

/// What the world of the day has counted since the program began.
#[derive(Clone, Copy)]
pub struct Figures {
    /// How the last second began, where one has.
    pub begun: Option<Begin>,
    /// Seconds that began without a link.
    pub alone: u64,
    /// Seconds that began too late for a turn.
    pub late: u64,
    /// Requests that were answered of the day.
    pub answers: u64,
    /// Bookings that were sold.
    pub sold: u64,
    /// Bookings that were given up, since no channel was left for them.
    pub dropped: u64,
    /// How many seconds ago the journal was brought to the disk last, where it was.
    pub since_sync: Option<u64>,
    /// For each cause how many messages have come that clear a call with it.
    pub clearings: [u64; 128],
}

impl Figures {
    /// Nothing was counted yet.
    pub fn new() -> Figures
        ensures clearings { result.clearings ≡ replicate 128 0 }
        ensures seconds { (result.begun ≡ None) × (result.alone ≡ 0) × (result.late ≡ 0) }
        ensures office { (result.answers ≡ 0) × (result.sold ≡ 0) × (result.dropped ≡ 0) }
        ensures sync { result.since_sync ≡ None }
    {
        Figures {
            begun: None,
            alone: 0,
            late: 0,
            answers: 0,
            sold: 0,
            dropped: 0,
            since_sync: None,
            clearings: [0; 128],
        }
    }
}

/// The word of what has become of a booking.
fn word_of(became: Became) -> &'static str
    ensures { result.now ≡ word_of became }
{
    match became {
        Became::Refused => "refused",
        Became::Waiting => "waiting",
        Became::Live => "live",
        Became::Carried => "carried",
        Became::Unanswered => "unanswered",
        Became::Missed => "missed",
    }
}

/// Appends words.
pub(crate) fn push(text: &mut Vec<u8>, words: &str) -> Result<(), AllocError>
    ensures { OnOk result (text.new.items ≡ text.old.items ++ words.now) }
{
    text.extend_from_slice(words.as_bytes())
}

/// Appends the lines of a family of one sample, and the sample.
pub(crate) fn push_family(text: &mut Vec<u8>, head: &str, value: u64) -> Result<(), AllocError>
    ensures { OnOk result (text.new.items ≡ text.old.items ++ family_text head.now value) }
{
    push(text, head)?;
    append_decimal(text, value)?;
    push(text, "\n")
}

/// Appends a sample of bookings of which this has become.
fn push_sample(text: &mut Vec<u8>, name: &str, became: Became, value: u64) -> Result<(), AllocError>
    ensures { OnOk result (text.new.items ≡ text.old.items ++ sample name.now became value) }
{
    push(text, name)?;
    push(text, "{outcome=\"")?;
    push(text, word_of(became))?;
    push(text, "\"} ")?;
    append_decimal(text, value)?;
    push(text, "\n")
}

/// Appends how many bookings there are of which this has become.
fn push_count(text: &mut Vec<u8>, entries: &[Entry], became: Became) -> Result<(), AllocError>
    requires { length entries.now ≤ MAX_BOOKINGS }
    ensures { OnOk result (text.new.items ≡ text.old.items ++ sample (codes "bx_bookings") became (how_many (is_such became) entries.now)) }
{
    push_sample(text, "bx_bookings", became, tally_of(entries, became).count)
}

/// Appends how many bookings there are, by what has become of them.
fn push_bookings(text: &mut Vec<u8>, entries: &[Entry]) -> Result<(), AllocError>
    requires { length entries.now ≤ MAX_BOOKINGS }
    ensures { OnOk result (text.new.items ≡ text.old.items ++ bookings_text entries.now) }
{
    push(
        text,
        "# TYPE bx_bookings gauge\n# HELP bx_bookings Bookings of the last plan, by what has become of them.\n",
    )?;
    push_count(text, entries, Became::Refused)?;
    push_count(text, entries, Became::Waiting)?;
    push_count(text, entries, Became::Live)?;
    push_count(text, entries, Became::Carried)?;
    push_count(text, entries, Became::Unanswered)?;
    push_count(text, entries, Became::Missed)
}

/// Appends what the bookings pay of which this has become.
fn push_pay(text: &mut Vec<u8>, entries: &[Entry], became: Became) -> Result<(), AllocError>
    requires { length entries.now ≤ MAX_BOOKINGS }
    ensures { OnOk result (text.new.items ≡ text.old.items ++ sample (codes "bx_pay") became (pays_of (is_such became) entries.now)) }
{
    push_sample(text, "bx_pay", became, tally_of(entries, became).pay)
}

/// Appends what they pay.
fn push_pays(text: &mut Vec<u8>, entries: &[Entry]) -> Result<(), AllocError>
    requires { length entries.now ≤ MAX_BOOKINGS }
    ensures { OnOk result (text.new.items ≡ text.old.items ++ pays_text entries.now) }
{
    push(
        text,
        "# TYPE bx_pay gauge\n# HELP bx_pay What these bookings pay.\n",
    )?;
    push_pay(text, entries, Became::Refused)?;
    push_pay(text, entries, Became::Waiting)?;
    push_pay(text, entries, Became::Live)?;
    push_pay(text, entries, Became::Carried)?;
    push_pay(text, entries, Became::Unanswered)?;
    push_pay(text, entries, Became::Missed)
}

/// Appends how many rows the day has left.
fn push_rows(text: &mut Vec<u8>, entries: &[Entry]) -> Result<(), AllocError>
    requires { length entries.now ≤ MAX_BOOKINGS }
    ensures { OnOk result (text.new.items ≡ text.old.items ++ rows_left_text entries.now) }
{
    push_family(
        text,
        "# TYPE bx_rows_left gauge\n# HELP bx_rows_left Bookings that the last plan has room for.\nbx_rows_left ",
        (MAX_BOOKINGS - entries.len()) as u64,
    )
}

/// Appends how many channels are in maintenance.
fn push_maintenance(text: &mut Vec<u8>, exchange: &Exchange) -> Result<(), AllocError>
    ensures { OnOk result (text.new.items ≡ text.old.items ++ maintenance_text exchange.now) }
{
    push_family(
        text,
        "# TYPE bx_channels_in_maintenance gauge\n# HELP bx_channels_in_maintenance Channels that have no call until the next day.\nbx_channels_in_maintenance ",
        u64::from(maintained(exchange)),
    )
}

/// Appends the figures of the link.
fn push_link(text: &mut Vec<u8>, figures: &Figures) -> Result<(), AllocError>
    ensures { OnOk result (text.new.items ≡ text.old.items ++ link_text figures.now) }
{
    push_family(
        text,
        "# TYPE bx_seconds_without_link gauge\n# HELP bx_seconds_without_link Seconds that began without a link.\nbx_seconds_without_link ",
        figures.alone,
    )?;
    push_family(
        text,
        "# TYPE bx_late_seconds gauge\n# HELP bx_late_seconds Seconds that began more than a second late.\nbx_late_seconds ",
        figures.late,
    )
}

/// Appends how often something came with a cause.
fn push_cause(text: &mut Vec<u8>, name: &str, cause: u64, count: u64) -> Result<(), AllocError>
    ensures { OnOk result (text.new.items ≡ text.old.items ++ cause_line name.now cause count) }
{
    push(text, name)?;
    append_decimal(text, cause)?;
    push(text, "\"} ")?;
    append_decimal(text, count)?;
    push(text, "\n")
}

/// Appends how often a call was cleared with a cause, if it was.
fn push_clearing(text: &mut Vec<u8>, cause: u64, count: u64) -> Result<(), AllocError>
    ensures { OnOk result (text.new.items ≡ text.old.items ++ clearing_line cause count) }
{
    if count == 0 {
        return Ok(());
    }
    push_cause(text, "bx_clearings_received{cause=\"", cause, count)
}

/// Appends how often calls were cleared, by the cause that came.
fn push_clearings(text: &mut Vec<u8>, clearings: &[u64; 128]) -> Result<(), AllocError>
    ensures { OnOk result (text.new.items ≡ text.old.items ++ clearings_text clearings.now) }
{
    push(
        text,
        "# TYPE bx_clearings_received gauge\n# HELP bx_clearings_received Messages of the far end that clear a call, by their cause (ITU-T Q.850).\n",
    )?;
    let mut cause = 0u64;
    for count in clearings {
        push_clearing(text, cause, *count)?;
        cause += 1;
    }
    Ok(())
}

/// Appends the figures of the office.
fn push_office(text: &mut Vec<u8>, figures: &Figures) -> Result<(), AllocError>
    ensures { OnOk result (text.new.items ≡ text.old.items ++ office_text figures.now) }
{
    push_family(
        text,
        "# TYPE bx_answers gauge\n# HELP bx_answers Requests that were answered of the day.\nbx_answers ",
        figures.answers,
    )?;
    push_family(
        text,
        "# TYPE bx_bookings_sold gauge\n# HELP bx_bookings_sold Bookings that were sold.\nbx_bookings_sold ",
        figures.sold,
    )?;
    push_family(
        text,
        "# TYPE bx_bookings_dropped gauge\n# HELP bx_bookings_dropped Bookings that were given up for want of a channel.\nbx_bookings_dropped ",
        figures.dropped,
    )
}

/// Appends how long ago the journal was brought to the disk, where it was.
fn push_sync(text: &mut Vec<u8>, since: Option<u64>) -> Result<(), AllocError>
    ensures { OnOk result (text.new.items ≡ text.old.items ++ sync_text since) }
{
    match since {
        Some(seconds) => push_family(
            text,
            "# TYPE bx_sync_age_seconds gauge\n# UNIT bx_sync_age_seconds seconds\n# HELP bx_sync_age_seconds Seconds since the journal was brought to the disk last.\nbx_sync_age_seconds ",
            seconds,
        ),
        None => Ok(()),
    }
}

/// Appends what the exchange tells.
fn push_day(text: &mut Vec<u8>, exchange: &Exchange) -> Result<(), AllocError>
    ensures { OnOk result (text.new.items ≡ text.old.items ++ day_text exchange.now) }
{
    push_family(
        text,
        "# TYPE bx_moment_seconds gauge\n# UNIT bx_moment_seconds seconds\n# HELP bx_moment_seconds Seconds of the day so far.\nbx_moment_seconds ",
        u64::from(exchange.moment()),
    )?;
    push_bookings(text, exchange.entries())?;
    push_pays(text, exchange.entries())?;
    push_rows(text, exchange.entries())?;
    push_maintenance(text, exchange)
}

/// Appends what the world has counted.
fn push_figures(text: &mut Vec<u8>, figures: &Figures) -> Result<(), AllocError>
    ensures { OnOk result (text.new.items ≡ text.old.items ++ figures_text figures.now) }
{
    push_link(text, figures)?;
    push_clearings(text, &figures.clearings)?;
    push_office(text, figures)?;
    push_sync(text, figures.since_sync)
}

/// The figures of the day so far.
fn text_of(alloc: Global, exchange: &Exchange, figures: &Figures) -> Result<Vec<u8>, AllocError>
    ensures { IfOk result (λ text. text.items ≡ metrics_text exchange.now figures.now) }
{
    let mut text = Vec::new(alloc);
    push_day(&mut text, exchange)?;
    push_figures(&mut text, figures)?;
    push(&mut text, "# EOF\n")?;
    Ok(text)
}

/// The figures of the day so far, as OpenMetrics: the moment; of the bookings of the last plan how many there are and what they pay, by what has
/// become of them; for how many more the plan has room; the channels in maintenance; and what the world has counted. `Memory` where memory runs out.
pub fn metrics_text(
    alloc: Global,
    exchange: &Exchange,
    figures: &Figures,
) -> Result<Vec<u8>, NoAnswer>
    ensures text { IfOk result (λ text. text.items ≡ metrics_text exchange.now figures.now) }
    ensures none { IfErr result (λ why. why ≡ NoAnswer.Memory) }
{
    match text_of(alloc, exchange, figures) {
        Ok(text) => Ok(text),
        Err(_) => Err(NoAnswer::Memory),
    }
}

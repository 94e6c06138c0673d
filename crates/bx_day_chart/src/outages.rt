//! What a picture shows that no exchange keeps: the seconds without a link, and whether the day is over.

ghost use Rattle.std.specs.Prelude.{◌≡◌, ◌++◌, OnErr, OnOk, [], flat_map, option_copied};
ghost use Rattle.bx_day_chart.specs.Outages.{outage_box, outage_of, outage_words, span_words};

use bx_calendar::Clock;
use bx_chart::{Picture, add_corner, add_extent, add_time};
use std::alloc::{AllocError, Global};

/// Seconds on end without a link: from the first of them until the one after the last.
#[derive(Clone, Copy)]
pub struct Outage {
    pub from: u32,
    pub until: u32,
}

/// The seconds without a link of a day, as they are noted.
#[derive(Drop)]
pub struct Outages {
    pub spans: Vec<Outage>,
}

/// What a picture shows of a day that its exchange does not keep.
#[derive(Drop)]
pub struct DaySight {
    pub outages: Outages,
    /// Whether the day is over: else a line stands at the moment to which it has come.
    pub is_over: bool,
}

impl Outages {
    ghost use Rattle.bx_day_chart.specs.Outages.{noted};

    /// No second yet.
    pub fn new(alloc: Global) -> Outages
        ensures { result.spans.items ≡ [] }
    {
        Outages {
            spans: Vec::new(alloc),
        }
    }

    /// Notes that there was no link from this second of the day until the next. One that follows on the last lengthens its outage, so a day has no more
    /// of them than were noted apart. `AllocError` where memory runs out, and nothing is noted.
    pub fn note(&mut self, second: u32) -> Result<(), AllocError>
        ensures noted { OnOk result (self.new.spans.items ≡ noted second self.old.spans.items) }
        ensures kept { OnErr result (self.new.spans.items ≡ self.old.spans.items) }
    {
        let until = second.saturating_add(1);
        let count = self.spans.len();
        if count > 0 && self.spans[count - 1].until == second {
            self.spans[count - 1].until = until;
            return Ok(());
        }
        self.spans.push(Outage {
            from: second,
            until,
        })?;
        Ok(())
    }
}

/// Adds from when until when.
pub(crate) fn add_span(
    picture: &mut Picture,
    clock: Option<&Clock>,
    from: u32,
    until: u32,
) -> Result<(), AllocError>
    ensures { OnOk result (picture.new.text.items ≡ picture.old.text.items ++ span_words (option_copied clock.entry) from until) }
{
    picture.add(b" from ")?;
    add_time(picture, clock, from)?;
    picture.add(b" until ")?;
    add_time(picture, clock, until)
}

/// Adds the box of an outage, over lanes that are so high together.
fn add_outage_box(picture: &mut Picture, high: u64, outage: Outage) -> Result<(), AllocError>
    ensures { OnOk result (picture.new.text.items ≡ picture.old.text.items ++ outage_box high outage) }
{
    let seconds = outage.until.saturating_sub(outage.from);
    picture.add(b"<rect class='outage")?;
    add_corner(picture, outage.from, 0)?;
    add_extent(picture, seconds, high)
}

/// Adds what it says.
fn add_outage_words(
    picture: &mut Picture,
    clock: Option<&Clock>,
    outage: Outage,
) -> Result<(), AllocError>
    ensures { OnOk result (picture.new.text.items ≡ picture.old.text.items ++ outage_words (option_copied clock.entry) outage) }
{
    picture.add(b"'><title>no link")?;
    add_span(picture, clock, outage.from, outage.until)?;
    picture.add(b"</title></rect>\n")
}

/// Adds the shade of an outage.
fn add_outage(
    picture: &mut Picture,
    clock: Option<&Clock>,
    high: u64,
    outage: Outage,
) -> Result<(), AllocError>
    ensures { OnOk result (picture.new.text.items ≡ picture.old.text.items ++ outage_of (option_copied clock.entry) high outage) }
{
    add_outage_box(picture, high, outage)?;
    add_outage_words(picture, clock, outage)
}

/// Adds the shades of all outages.
pub(crate) fn add_outages(
    picture: &mut Picture,
    clock: Option<&Clock>,
    high: u64,
    outages: &[Outage],
) -> Result<(), AllocError>
    ensures { OnOk result (picture.new.text.items ≡ picture.old.text.items ++ flat_map (outage_of (option_copied clock.entry) high) outages.now) }
{
    for outage in outages {
        add_outage(picture, clock, high, *outage)?;
    }
    Ok(())
}

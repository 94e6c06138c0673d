//! Days of few bookings, and what is told at their ends.

use crate::steps::{Step, first_wrong};
use bx_day::{Exchange, GivenUp};
use bx_devices::Watched;
use bx_worked_days::{Row, exchange_of};
use std::alloc::Global;
use std::test::Fail;

/// Bookings, what happens, and what is told in the end.
#[derive(Drop)]
pub(crate) struct Day<'a> {
    pub(crate) bookings: &'a [Row],
    pub(crate) steps: &'a [Step],
    pub(crate) told: &'a str,
}

/// Whether just this is told of the day, where these of its rows were given up.
pub(crate) fn tells_of(
    alloc: Global,
    exchange: &Exchange,
    given_up: &[Option<GivenUp>],
    text: &str,
) -> bool {
    let mut writer = Watched::new(Vec::new(alloc));
    let written = exchange.write_outcomes(given_up, &mut writer).is_ok();
    written && writer.into_inner().as_slice() == text.as_bytes()
}

/// The same where none was.
pub(crate) fn tells(alloc: Global, exchange: &Exchange, text: &str) -> bool {
    tells_of(alloc, exchange, &[], text)
}

/// Runs a day, and refuses one that goes otherwise.
pub(crate) fn run_day(alloc: Global, day: &Day<'_>) -> Result<(), Fail> {
    let mut exchange = exchange_of(alloc, day.bookings).ok_or("opening")?;
    if let Some(moment) = first_wrong(&mut exchange, day.steps) {
        return Err(Fail::new(moment));
    }
    if tells(alloc, &exchange, day.told) {
        Ok(())
    } else {
        Err(Fail::new("told"))
    }
}

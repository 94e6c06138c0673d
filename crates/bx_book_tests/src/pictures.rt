//! Pictures of a small plan, whole and cut off.

use crate::small_picture::SMALL;
use bx_base::{Booking, Bookings, ChannelSet, Plan, Price};
use bx_calendar::Clock;
use bx_cases::Failing;
use bx_channels::{Channel, Number};
use bx_chart::{ChartFault, write_chart};
use bx_devices::Watched;
use std::alloc::Global;
use std::test::Fail;

/// A free call that pays so much.
fn call(start: u32, end: u32, pay: u64, number: &[u8]) -> Option<Booking> {
    Booking::new(start, end, pay, Number::new(number)?)
}

fn bookings(alloc: Global) -> Option<Bookings> {
    let mut bookings = Bookings::new(alloc);
    bookings.push(call(28_800, 32_400, 7, b"4930111")?).ok()?;
    let must = call(30_600, 35_100, 9, b"4930112")?;
    bookings.push(must.as_must().as_inward()).ok()?;
    let refused = call(30_600, 36_005, 5, b"4930113")?;
    bookings.push(refused.as_inward()).ok()?;
    Some(bookings)
}

/// Two channels, three calls of which the last is refused, and one price.
fn small_plan(alloc: Global) -> Option<Plan> {
    let mut assigned = Vec::new(alloc);
    assigned.push(Channel::new(2)).ok()?;
    assigned.push(Channel::new(17)).ok()?;
    assigned.push(None).ok()?;
    let mut prices = Vec::new(alloc);
    prices.push(Price::new(30_600, 5)?).ok()?;
    let channels = ChannelSet::from_numbers(&[2, 17]).ok()?;
    Plan::new(bookings(alloc)?, channels, assigned, prices, 16)
}

/// What is written of the small plan, on the day of a clock where one is given, where so many octets can be, and why no more.
pub(crate) fn written(
    alloc: Global,
    clock: Option<&Clock>,
    octets: u32,
) -> Option<(Vec<u8>, Option<ChartFault>)> {
    let plan = small_plan(alloc)?;
    let mut output = Watched::new(Failing::new(Vec::new(alloc), octets, 1));
    let fault = write_chart(alloc, &plan, 5, clock, &mut output).err();
    Some((output.into_inner().into_inner(), fault))
}

#[test]
fn a_small_plan(rt: HostRuntime) -> Result<(), Fail> {
    let (text, fault) = written(rt.alloc(), None, 100_000).ok_or("no plan")?;
    assert!(rt; fault.is_none(), "a fault");
    assert!(rt; text.as_slice() == SMALL.as_bytes(), "another picture");
    Ok(())
}

#[test]
fn an_output_that_fails(rt: HostRuntime) -> Result<(), Fail> {
    let (text, fault) = written(rt.alloc(), None, 700).ok_or("no plan")?;
    assert!(rt; fault == Some(ChartFault::WriteFailed), "no fault");
    assert!(rt; text.as_slice() == &SMALL.as_bytes()[..700], "no front");
    Ok(())
}

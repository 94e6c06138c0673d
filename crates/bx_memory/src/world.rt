//! What the calls are made with.

use bx_base::{Bookings, ChannelSet, Plan};
use bx_book::read_bookings;
use bx_calendar::Day;
use bx_devices::Watched;
use bx_planfile::write_plan;
use bx_planner::plan;
use std::alloc::Global;

/// What came of a call: a number that sums up what it gave, memory that ran out, or anything else.
#[derive(Clone, Copy)]
pub enum Answer {
    Right(u64),
    Refused,
    Wrong,
}

/// A day, its bookings, their best plan on channels 1 and 2, and its text.
#[derive(Drop)]
pub struct World {
    pub day: Day,
    pub bookings: Bookings,
    pub channels: ChannelSet,
    pub plan: Plan,
    pub text: Vec<u8>,
}

/// Five bookings: the third has to be held, and the best plan leaves out the first two.
pub static BOOKINGS: &[u8] = b"start,end,number,pay,must\n\
2026-01-05T00:00:00Z,2026-01-05T00:00:10Z,4930111,4,no\n\
2026-01-05T00:00:05Z,2026-01-05T00:00:15Z,4930112,6,no\n\
2026-01-05T00:00:05Z,2026-01-05T00:00:12Z,4930113,5,yes\n\
2026-01-05T00:00:20Z,2026-01-05T00:00:30Z,4930114,1,no\n\
2026-01-05T00:00:08Z,2026-01-05T00:00:25Z,4930115,7,no\n";

/// The world; none where memory ran out.
pub fn world_of(alloc: Global) -> Option<World> {
    let day = Day::new("2026-01-05", "UTC0").ok()?;
    let channels = ChannelSet::from_numbers(&[1, 2]).ok()?;
    let bookings = read_bookings(alloc, BOOKINGS, &day).ok()?;
    let plan = plan(alloc, &bookings, channels).ok()?;
    let mut text = Watched::new(Vec::new(alloc));
    write_plan(&plan, &mut text).ok()?;
    Some(World {
        day,
        bookings,
        channels,
        plan,
        text: text.into_inner(),
    })
}

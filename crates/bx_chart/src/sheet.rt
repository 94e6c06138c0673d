//! Where things stand in a picture.

ghost use Rattle.std.specs.Prelude.{◌≡◌, ◌≤◌, ◌+◌, max, option_copied, length};
ghost use Rattle.bx_base.specs.PlanParts.{parts_of};
ghost use Rattle.bx_base.specs.Channels.{count_of};
ghost use Rattle.bx_chart.specs.Hours.{across, bandless, day_length, latest_below, lanes_end, prices_top, refused_top, room_of};
ghost use Rattle.bx_base.specs.declared.booking.TheConstants.{MAX_MOMENT};

use bx_base::{ChannelSet, Plan};
use bx_calendar::Clock;

/// Where the day begins, how wide it is, and where the lanes begin, in units of the picture.
pub(crate) const LEFT: u64 = 56;

pub(crate) const WIDTH: u64 = 1120;

pub const TOP: u64 = 92;
/// How high a lane is, and each of the two bands below the lanes.
pub const LANE: u64 = 16;

pub(crate) const BAND: u64 = 70;
/// How much lies between the lanes and a band, for the hours or words.
pub(crate) const GAP: u64 = 44;

/// What a picture has room for: so many seconds from midnight on, and so many lanes, one at least; and whether bands of what is
/// refused and of the prices stand below the lanes.
#[derive(Clone, Copy)]
pub struct Sheet {
    pub seconds: u32,
    pub lanes: u8,
    pub has_bands: bool,
    ghost limits: { (1 ≤ seconds) × (seconds ≤ MAX_MOMENT) × (1 ≤ lanes) × (lanes ≤ 30) },
}

/// How long the day is, or 86,400 seconds where none is given.
pub fn day_length(clock: Option<&Clock>) -> u32
    ensures value { result ≡ day_length (option_copied clock.entry) }
    ensures limits { (1 ≤ result) × (result ≤ MAX_MOMENT) }
{
    match clock {
        Some(clock) => clock.day().length(),
        None => 86_400,
    }
}

/// So many seconds, or as many as the latest end asks for.
fn seconds_of(plan: &Plan, least: u32) -> u32
    requires { (1 ≤ least) × (least ≤ MAX_MOMENT) }
    ensures value { result ≡ latest_below (parts_of plan.now).rows least (length (parts_of plan.now).rows) }
    ensures limits { (1 ≤ result) × (result ≤ MAX_MOMENT) }
{
    let mut seconds = least;
    for index in 0..plan.bookings.len() {
        let end = plan.bookings.nth(index).end();
        if seconds < end {
            seconds = end;
        }
    }
    seconds
}

/// A lane for each channel in service, one at least.
fn lanes_of(channels: &ChannelSet) -> u8
    ensures value { result ≡ max 1 (count_of channels.now) }
    ensures limits { (1 ≤ result) × (result ≤ 30) }
{
    let count = channels.count();
    if count == 0 { 1 } else { count }
}

impl Sheet {
    ghost use Rattle.bx_chart.specs.Frames.{height};
    ghost use Rattle.bx_chart.specs.Sheets.{room};

    /// The sheet of a plan: of the whole day, or of 86,400 seconds where none is given, and up to its latest end.
    pub(crate) fn of(plan: &Plan, clock: Option<&Clock>) -> Sheet
        ensures { room result ≡ room_of (parts_of plan.now) (option_copied clock.entry) }
    {
        let seconds = seconds_of(plan, day_length(clock));
        let lanes = lanes_of(&plan.channels);
        Sheet {
            seconds,
            lanes,
            has_bands: true,
        }
    }

    /// The sheet of a picture without bands: so many seconds, and a lane for each of these channels.
    pub fn without_bands(channels: &ChannelSet, seconds: u32) -> Sheet
        requires { (1 ≤ seconds) × (seconds ≤ MAX_MOMENT) }
        ensures { room result ≡ bandless channels.now seconds }
    {
        let lanes = lanes_of(channels);
        Sheet {
            seconds,
            lanes,
            has_bands: false,
        }
    }

    /// The end of the lanes.
    pub fn lanes_end(&self) -> u64
        ensures value { result ≡ lanes_end (room self.now) }
        ensures limits { result ≤ 600 }
    {
        TOP + LANE * u64::from(self.lanes)
    }

    /// Where the band of what is refused begins.
    pub(crate) fn refused_top(&self) -> u64
        ensures value { result ≡ refused_top (room self.now) }
        ensures limits { (44 ≤ result) × (result ≤ 700) }
    {
        self.lanes_end() + GAP
    }

    /// Where the band of the prices begins.
    pub(crate) fn prices_top(&self) -> u64
        ensures value { result ≡ prices_top (room self.now) }
        ensures limits { (44 ≤ result) × (result ≤ 900) }
    {
        self.refused_top() + BAND + GAP
    }

    /// The end of the picture.
    pub fn height(&self) -> u64
        ensures value { result ≡ height (room self.now) }
        ensures limit { result ≤ 1100 }
    {
        if self.has_bands {
            self.prices_top() + BAND + 24
        } else {
            self.lanes_end() + 62
        }
    }

    /// How far from the left a second is, in tenths of a unit.
    pub fn tenths(&self, second: u32) -> u64
        ensures { result ≡ across (room self.now) second }
    {
        10 * LEFT + 10 * WIDTH * u64::from(second) / u64::from(self.seconds)
    }
}

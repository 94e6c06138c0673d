//! What has become of a booking.

ghost use Rattle.std.specs.Prelude.{◌≡◌, ◌↔◌, IsTrue};
ghost use Rattle.bx_day.specs.Changed.{IsOverBy};
ghost use Rattle.bx_day.specs.Day.{is_live, is_unoffered};
ghost use Rattle.bx_day.specs.Invariant.{is_refused};

use bx_base::Booking;
use bx_calls::NetCall;
use bx_events::Rules;
use bx_q931::Out;

/// The moments at which a call became and left Active.
#[derive(Clone, Copy)]
pub enum Activity {
    Never,
    Since { from: u32 },
    Was { from: u32, until: u32 },
}

/// What has become of a booking.
#[derive(Clone, Copy)]
pub enum Standing {
    /// The plan does not accept it.
    Refused,
    /// It waits for its start, or for its channel.
    Unoffered,
    /// It is live.
    OnCall { call: NetCall, activity: Activity },
    /// Its call is over, and was Active between these moments.
    Carried { from: u32, until: u32 },
    /// Its call is over, and was never Active.
    Unanswered,
    /// It was never live, and its end has come.
    Missed,
}

impl Standing {
    /// Whether the plan does not accept it.
    pub fn is_refused(self) -> bool
        ensures { result ≡ is_refused self }
    {
        matches!(self, Standing::Refused)
    }

    /// Whether it waits for its start, or for its channel.
    pub fn is_waiting(self) -> bool
        ensures { result ≡ is_unoffered self }
    {
        matches!(self, Standing::Unoffered)
    }

    /// Whether a call of it is live.
    pub fn is_live(self) -> bool
        ensures { result ≡ is_live self }
    {
        matches!(self, Standing::OnCall { .. })
    }

    /// Whether its call, if that is over, was so by this moment.
    pub fn is_over_by(self, end: u32) -> bool
        ensures { IsTrue result ↔ IsOverBy self end }
    {
        match self {
            Standing::Carried { until, .. } => until <= end,
            _ => true,
        }
    }
}

/// A booking with its row, its channel and the reference of its call where the exchange begins that, and what has become of it. The
/// reference is the row, but for a day that took over from another (`Exchange::hand_over`).
#[derive(Clone, Copy)]
pub struct Entry {
    pub row: u16,
    pub reference: u16,
    pub booking: Booking,
    pub channel: u8,
    pub standing: Standing,
}

/// What an event does to one booking: what has become of it, what is sent, and whether its channel breaks.
#[derive(Clone, Copy)]
pub struct Moved {
    pub standing: Standing,
    pub said: Option<Out>,
    pub broken: bool,
}

/// Whether there is a link to the far end in a second, and by which rules one without it is gone through.
#[derive(Clone, Copy)]
pub enum Link {
    Up,
    Down(Rules),
}

//! What is told of a booking.

ghost use Rattle.std.specs.Prelude.{◌≡◌};
ghost use Rattle.bx_day.specs.Reading.{outcome_of};

use crate::entry::Standing;

/// What has become of a booking, as the exchange tells it.
#[derive(Clone, Copy, Debug, PartialEq, Eq)]
pub enum Outcome {
    /// The plan does not accept it.
    Refused,
    /// It waits for its start, or for its channel.
    Waiting,
    /// A call of it is live.
    Live,
    /// Its call was Active from the first moment, and left Active at the second.
    Carried { from: u32, until: u32 },
    /// Its call is over, and was never Active.
    Unanswered,
    /// It was never live, and its end has come.
    Missed,
}

/// How a booking that the plan had accepted was given up, as the log of its day tells it.
#[derive(Clone, Copy, Debug, PartialEq, Eq)]
pub enum GivenUp {
    /// Its customer cancelled it.
    Cancelled,
    /// Its channel was lost, and none was left for it.
    Dropped,
}

/// The outcome of a booking of which this has become.
pub(crate) fn outcome_from(standing: Standing) -> Outcome
    ensures { result ≡ outcome_of standing }
{
    match standing {
        Standing::Refused => Outcome::Refused,
        Standing::Unoffered => Outcome::Waiting,
        Standing::OnCall { .. } => Outcome::Live,
        Standing::Carried { from, until } => Outcome::Carried { from, until },
        Standing::Unanswered => Outcome::Unanswered,
        Standing::Missed => Outcome::Missed,
    }
}

//! What is planned is earned, where the far end answers each call in its own time.

ghost use Rattle.bx_two_ends.specs.Ringing.{AnswersWithinNone, ConnectsByMessages, IsCarriedOnceAnswered, IsCarriedAfterRinging, IsCarriedPunctuallyAfterRinging};
ghost use Rattle.bx_two_ends.specs.Ringing.{IsPaidOnceAnswered, IsPaidAfterRinging, FarAnswersWithin, IsEngineDayRung, IsEngineDayRungPaid};

use crate::earned::plan_stays;
use bx_journal::Disk;
use std::io::{Read, Write};

/// Where the far end answers the call of each row within its own number of seconds, and the timers of the exchange give none up before,
/// an accepted outward booking is carried to its end: on a link that is never lost each that takes its seconds and two more, from its
/// seconds and one more after its start at the latest, and from its seconds after its start where no booking of its channel ends there.
/// Where it answers within no seconds, that is the law of a far end that answers each turn. One that clears each turn by its messages, and
/// connects each call within its seconds, is such a far end, where no timer gives a call up before.
pub fn rung_is_carried()
    ensures carried { IsCarriedOnceAnswered }
    ensures unbroken { IsCarriedAfterRinging }
    ensures punctual { IsCarriedPunctuallyAfterRinging }
    ensures at_once { AnswersWithinNone }
    ensures connected { ConnectsByMessages }
{}

/// And where all accepted bookings have their seconds, the totals have as carried just what the plan's accepted bookings pay.
pub fn rung_is_paid()
    ensures carried { IsPaidOnceAnswered }
    ensures unbroken { IsPaidAfterRinging }
{
    plan_stays();
    rung_is_carried();
}

/// A far end whose script answers each call before T301 is due, and calls nobody, does so: in turns of both ends over a link that loses
/// nothing it answers the call of each row within the seconds that the script lets its number ring.
pub fn far_rings()
    ensures { FarAnswersWithin }
{}

/// So a day of both ends by the program's engine, towards such a far end, carries each accepted outward booking that takes the seconds that
/// its number may ring, and two more; and where all accepted ones are such, what is paid for carried calls is the plan's total.
pub fn rung_day<R: Read, W: Write, S: Read, T: Write, D: Disk>()
    ensures carried { IsEngineDayRung R.remaining W.contents S.remaining T.contents D.holds D.may_leave D.moment D.left_since D.has_failed }
    ensures paid { IsEngineDayRungPaid R.remaining W.contents S.remaining T.contents D.holds D.may_leave D.moment D.left_since D.has_failed }
{}

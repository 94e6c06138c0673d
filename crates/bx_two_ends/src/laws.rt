//! What holds of two ends over every list of events.

ghost use Rattle.bx_two_ends.specs.Scripts.{ScriptsFit};
ghost use Rattle.bx_two_ends.specs.Lockstep.{FarAnswers};
ghost use Rattle.bx_two_ends.specs.TwoEnds.{TwoEnds};
ghost use Rattle.bx_two_ends.specs.TwoEndsInward.{TwoEndsInward};
ghost use Rattle.bx_two_ends.specs.Amended.{TwoEndsAmended};
ghost use Rattle.bx_two_ends.specs.Laws.{IsOneProcessInTurns, IsOneProcessCarried, IsOneProcessPaid, IsEngineDayInTurns, IsEngineDayCarried, IsEngineDayPaid};
ghost use Rattle.bx_records.specs.Totals as totals;

use bx_journal::Disk;
use bx_sales::laws::one_day_by_journal;
use std::io::{Read, Write};

/// The two ends agree on each call that the exchange began (ITU-T Q.931, 5.2 and 5.3), whatever is lost, repeated,
/// delayed or reordered between them. For every carried plan, every script and every list of events: while such a
/// call is Active at the exchange, the far end holds the call of its reference on its channel or has that channel in
/// maintenance; no end holds two calls on a channel; and for each such call that is Active at the far end the
/// exchange has sent CONNECT ACKNOWLEDGE with its reference.
pub fn two_ends()
    ensures { TwoEnds }
{}

/// The two ends agree on each call that the far end began (ITU-T Q.931, 5.1 and 5.3), in the same way: while it is
/// Active at the far end, the exchange holds a call of its reference on its channel or has that channel in
/// maintenance, and has sent CONNECT with its reference.
pub fn two_ends_inward()
    ensures { TwoEndsInward }
{}

/// Both laws hold as well of a day on which bookings are sold, given up and changed: wherever it stands, its bookings are those of the plan as the lines of
/// the journal amend them, and the two ends agree on each call, whoever began it. The far end and all that is on its way are what they would be had the last
/// plan been there from the morning on.
pub fn two_ends_amended()
    ensures { TwoEndsAmended }
{
    one_day_by_journal();
}

/// Every script that is read keeps the premise of both laws: its rows that call name a number of 1 to 15 digits and a
/// B channel. That it has at most 16,000 rows is in the type of what `Script::read` answers.
pub fn scripts_fit()
    ensures { ScriptsFit }
{}

/// A far end whose script answers each call at once, and calls nobody, answers by its messages in each turn of a day of both ends
/// over a link that loses nothing. So what is planned is earned then (`earned::turns_are_answered`, `planned_is_carried`).
pub fn far_answers()
    ensures { FarAnswers }
{}

/// A day of both ends in one process (`run_both_ends` of `bx_sessions`) that went through all its turns, over connections whose readers
/// give what the other end writes, is one of both ends in turns over a link that loses nothing, of every carried plan and every script. So
/// where the script answers each call at once, and calls nobody, each accepted outward booking of two seconds or more is carried to its
/// end, from a second after its start at the latest; and where all are such, what is paid for carried calls is the plan's total.
pub fn one_process<R: Read, W: Write, S: Read, T: Write>()
    ensures in_turns { IsOneProcessInTurns R W S T }
    ensures carried { IsOneProcessCarried R W S T }
    ensures paid { IsOneProcessPaid R W S T }
{}

/// The same of a day by the program's engine, `run_live` over a `Rehearsal` towards `BothEnds`, with a journal or without, that came to its end before the
/// last moment, and whose link was not lost.
pub fn engine_day<R: Read, W: Write, S: Read, T: Write, D: Disk>()
    ensures in_turns { IsEngineDayInTurns R.remaining W.contents S.remaining T.contents D.holds D.may_leave D.moment D.left_since D.has_failed }
    ensures carried { IsEngineDayCarried R.remaining W.contents S.remaining T.contents D.holds D.may_leave D.moment D.left_since D.has_failed }
    ensures paid { IsEngineDayPaid R.remaining W.contents S.remaining T.contents D.holds D.may_leave D.moment D.left_since D.has_failed }
{}

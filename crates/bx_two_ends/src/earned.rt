//! What is planned is earned, where the far end answers.

ghost use Rattle.std.specs.Prelude.{◌≡◌, ℕ, false, List, Option};
ghost use Rattle.bx_base.specs.Bookings.{Row};
ghost use Rattle.bx_day.specs.Day.{Day, opening};
ghost use Rattle.bx_events.specs.Events.{Event};
ghost use Rattle.bx_day.specs.Run.{day_after};
ghost use Rattle.bx_two_ends.specs.Earning.{LiveSecond, AreAnswered, AreCleared, IsAllAnswered, IsCleared};
ghost use Rattle.bx_two_ends.specs.Asking.{is_touched, DayUntouched};
ghost use Rattle.bx_calls.specs.PlainCalls.{PlainNetCall};
ghost use Rattle.bx_calls.specs.Hearing.{Heard};
ghost use Rattle.bx_calls.specs.NetTable.{net_message, net_row};
ghost use Rattle.bx_two_ends.specs.Earned.{IsGivenUpInVain, IsGivenUpAsReported, KeepsPlan, IsCarriedInItsSeconds, IsCarriedFromNow};
ghost use Rattle.bx_two_ends.specs.Earned.{IsCarriedOnceCalled, IsCarriedOnceTalking, StaysInService, IsCarriedUnbroken};
ghost use Rattle.bx_two_ends.specs.Earned.{IsCarriedPunctually, AnswersByMessages, ClearsByMessages, IsAcceptedAsPlanned, IsPaidAsPlanned};
ghost use Rattle.bx_two_ends.specs.Earned.{IsPaidUnbroken};
ghost use Rattle.bx_two_ends.specs.LossyLink.{IsCarriedBehindOutages, IsCarriedBetweenOutages, IsCarriedThroughOutages, StaysInServiceBehindOutages};
ghost use Rattle.bx_two_ends.specs.AmendedDays.{TurnsStay, IsEarnedAmended};
ghost use Rattle.bx_records.specs.Totals as totals;

use bx_sales::laws::one_day_by_journal;

/// Where no message comes of a call that was Active in a second without a link, it is Active no more 9 seconds with a link
/// later. Where the far end reports a call state of it that does not fit N10, it is Active no more at once (`reported`). And without
/// such seconds no call is touched, that is asked for or offered anew, and each message finds the table of messages alone (`unasked`).
pub fn asked_for()
    ensures in_vain { IsGivenUpInVain }
    ensures reported { IsGivenUpAsReported }
    ensures unasked { (call : PlainNetCall) (m : Heard) (t : ℕ) → is_touched call.state ≡ false → net_message call m t ≡ net_row call m t call.state m.kind }
    ensures never { (rows : List Row) (assigned : List (Option ℕ)) (events : List Event) → DayUntouched (day_after events (opening rows assigned)) }
{}

/// No event changes the bookings of a day, nor which of them the plan accepts.
pub fn plan_stays()
    ensures { KeepsPlan }
{}

/// What is planned is earned, whatever seconds without a link there are between turns. Where the far end answers each turn an accepted
/// outward booking is carried to its end, from its second second with a link at the latest; on a link that is never lost each that
/// takes two seconds or more, from a second after its start at the latest, and one that begins while its channel is free from its
/// start. Where it clears just what is cleared, but lets calls ring, a booking whose call is Active at some moment is carried from
/// then at the latest, and an inward one that is called from the next second with a link on; and no channel gets into maintenance.
/// And whatever went before (`recovered`): on a day on which no call waits for an answer and no channel is in maintenance, and from which on
/// the far end answers each turn, each outward booking that waits then is carried so, where it has its seconds from then on.
pub fn planned_is_carried()
    ensures carried { IsCarriedInItsSeconds }
    ensures recovered { IsCarriedFromNow }
    ensures called { IsCarriedOnceCalled }
    ensures talking { IsCarriedOnceTalking }
    ensures in_service { StaysInService }
    ensures cleared { (seconds : List LiveSecond) (d : Day) → AreAnswered seconds d → AreCleared seconds d }
    ensures unbroken { IsCarriedUnbroken }
    ensures punctual { IsCarriedPunctually }
{}

/// A far end that answers by its messages answers each turn, and one that clears by its messages clears each turn: after a tick and before
/// the next one come RELEASE or RELEASE COMPLETE to each call that is being cleared, any message to each that is asked for after seconds
/// without a link, nothing that clears another call, and, where it answers, a CONNECT to each call whose SETUP waits.
pub fn turns_are_answered()
    ensures answered { AnswersByMessages }
    ensures cleared { ClearsByMessages }
{}

/// An outage costs what it covers, and six seconds more at most. Towards a far end of `bx` whose script answers each call at once, in
/// turns, and whatever messages are lost with the link however often, each accepted outward booking of two seconds or more that runs on
/// for six seconds with a whole link is carried to its end: from a second after its start at the latest, or from six seconds behind what
/// was lost (`carried`), also where the link is lost again after these six seconds (`between`). With five it is not: a RELEASE of each
/// end that meets the other's is answered by none, and T308 takes four. A booking whose call is up is carried to its end whatever is
/// lost from then on (`through`), and no channel gets into maintenance, at either end (`in_service`).
pub fn carried_behind_outages()
    ensures carried { IsCarriedBehindOutages }
    ensures between { IsCarriedBetweenOutages }
    ensures through { IsCarriedThroughOutages }
    ensures in_service { StaysInServiceBehindOutages }
{}

/// What is planned is paid: over every list of events the totals have as accepted what the plan's bookings pay; where the far end
/// answers each turn, and each accepted booking has its seconds with a link or is called, just as much as carried. On a link that
/// is never lost two seconds are enough for an outward one.
pub fn planned_is_paid()
    ensures accepted { IsAcceptedAsPlanned }
    ensures carried { IsPaidAsPlanned }
    ensures unbroken { IsPaidUnbroken }
{
    plan_stays();
    planned_is_carried();
}

/// What is planned is earned as well on a day on which bookings are sold, given up and changed between its turns: each turn that was answered while the day
/// ran is answered on the day of the last plan too (`answered`; `cleared` says the same of one that was cleared), and so that plan is earned, by its own
/// channels (`earned`).
pub fn amended_is_earned()
    ensures answered { TurnsStay IsAllAnswered }
    ensures cleared { TurnsStay IsCleared }
    ensures earned { IsEarnedAmended }
{
    one_day_by_journal();
    planned_is_paid();
}

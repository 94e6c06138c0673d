//! What holds of every run with sales.

ghost use Rattle.bx_market.specs.Told.{IsNothingOffLog, IsBestOfEachBatch, IsNoChangeOffLog, IsNeverTakenOver, IsDayOfSomePlan, IsOrderlyRun, IsDayOfTheLastPlan, IsAllWrittenForEvents, IsLeastGivenUp};

use bx_day::laws;

/// Nothing is sold outside the journal: what a customer is told was logged since the batch was asked for, neither more nor less,
/// and is on the disk.
pub fn nothing_off_log()
    ensures { IsNothingOffLog }
{}

/// Nothing is changed outside the journal: what a customer is told to be done is one line of it that tells just that, logged since it was asked for, and on
/// the disk; where the customer is told that it is not done, nothing was logged, and it is true why.
pub fn no_change_off_log()
    ensures { IsNoChangeOffLog }
{}

/// Of each batch the best choice is sold: of its bookings that start later, no other set that is carried beside all that was promised
/// when it was asked for pays more than what is accepted. Where memory ran out that is told, and where the day took over from another
/// (`TookOver`).
pub fn best_of_each_batch()
    ensures { IsBestOfEachBatch }
{}

/// Where a channel is lost, and the world is told that it was left as a whole, nothing has to leave it any more, and no more is given up than has to be: of
/// all that was promised no other set, with all that has begun, that the channels left carry pays more than what is kept.
pub fn least_is_given_up()
    ensures { IsLeastGivenUp }
{}

/// Where a run begins on the day of a plan, whatever its channels, nobody is told `TookOver`: a booking that is chosen is refused only where memory runs
/// out.
pub fn never_took_over()
    ensures { IsNeverTakenOver }
{}

/// Wherever a run stands that began on the day of a plan, its day is that of a last plan, which the channels carry: of the rows of that plan with all that
/// was sold after them, without what was given up, each as it was changed last. So each law of the days of plans holds of it, as that no two calls are up
/// on one channel.
pub fn day_of_some_plan()
    ensures { IsDayOfSomePlan }
{}

/// So wherever such a run stands no channel is held twice, and all calls are in their time, by the last plan: each on its channel, Active while its booking
/// runs alone, and over 38 seconds after its end, later by what there was no link for (`one_per_channel` of `bx_day`). And what is sent next fits that plan.
pub fn one_per_channel()
    ensures { IsOrderlyRun }
{
    laws::one_per_channel();
}

/// Where the plan of the morning is first fit, and no channel was lost, the day of a run is that of the last plan, over the logged events from the morning on: of the rows of the
/// morning with all that was sold after them, without what was given up, each as it was changed last, coloured once. The same holds where the run goes on after a journal that was read, whose
/// amendments the plan has by then.
pub fn day_of_the_last_plan()
    ensures { IsDayOfTheLastPlan }
{}

/// Whatever is written to a peer is what the exchange sends for an event that is logged, on the day that went through just the events and
/// sales that were logged before it. After it only messages that came are logged; where messages are sent for it, all that is logged is on
/// the disk by then.
pub fn written_is_logged()
    ensures { IsAllWrittenForEvents }
{}

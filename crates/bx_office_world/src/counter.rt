//! What the office does at its door, also where others hold it too: the door is taken, used, and put back.

ghost use Rattle.bx_office_world.specs.Counters.{IsServedAt, IsSoldToldAt, IsChangeToldAt};
ghost use Rattle.bx_office_world.specs.KnownKeys.{known_keys};
ghost use Rattle.bx_office_world.specs.Seen.{IsSeenAt};
ghost use Rattle.bx_office_world.specs.KeysTaken.{IsKeyTaken};

use crate::changes::{Changing, tell_changed};
use crate::ledger::Ledger;
use crate::serving::{Desk, Pending, Selling, tell_sold};
use crate::tariff::Terms;
use bx_day::Exchange;
use bx_market::{Answer, Request};
use bx_office_door::Lends;
use bx_sales::NoChange;
use std::alloc::Global;

/// How many were answered at the door, and what its clock shows, where it is there.
pub(crate) fn seen_at<S: Lends>(holder: &mut S) -> Option<(u64, u128)>
    ensures { IsSeenAt S.lent result holder.old holder.new }
{
    let door = holder.take()?;
    let seen = (door.answers(), door.shown());
    holder.put_back(door);
    Some(seen)
}

/// Keeps the figures for who asks before the day begins, and answers who waits, up to the first that asks for a sale or a change: whose it is,
/// and what is wanted.
pub(crate) fn serve_at<S: Lends>(
    alloc: Global,
    holder: &mut S,
    desk: &Desk<'_>,
    ledger: &mut Ledger,
    exchange: &Exchange,
) -> Option<(Pending, Request)>
    ensures served { IsServedAt S.lent desk.now ledger.old.requests.items exchange.now result holder.old holder.new }
    ensures keys { IsKeyTaken (known_keys ledger.old) result (known_keys ledger.new) }
{
    let mut door = holder.take()?;
    desk.prepare(alloc, &mut door, exchange);
    let next = desk.serve(alloc, &mut door, ledger, exchange);
    holder.put_back(door);
    next
}

/// Tells the customer of a batch what is sold of it.
pub(crate) fn tell_sold_at<S: Lends>(
    alloc: Global,
    holder: &mut S,
    terms: Terms,
    selling: &Selling,
    answers: &[Answer],
)
    ensures { IsSoldToldAt S.lent terms selling.now answers.now holder.old holder.new }
{
    if let Some(mut door) = holder.take() {
        tell_sold(alloc, &mut door, terms, selling, answers);
        holder.put_back(door);
    }
}

/// Tells the customer of a change what has become of it.
pub(crate) fn tell_changed_at<S: Lends>(
    alloc: Global,
    holder: &mut S,
    changing: &Changing,
    answer: Result<(), NoChange>,
)
    ensures { IsChangeToldAt S.lent changing.now answer holder.old holder.new }
{
    if let Some(mut door) = holder.take() {
        tell_changed(alloc, &mut door, changing, answer);
        holder.put_back(door);
    }
}

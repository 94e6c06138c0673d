//! An exchange that goes on from a state of its day.

ghost use Rattle.std.specs.Prelude.{◌≡◌, ◌<◌, ◌≤◌, IfOk, length};
ghost use Rattle.std.specs.List.{AllByRecursion};
ghost use Rattle.bx_base.specs.declared.bookings.TheConstants.{MAX_BOOKINGS};
ghost use Rattle.bx_day.specs.Invariant.{Pairs, Apart};
ghost use Rattle.bx_day.specs.Passing.{day_of};
ghost use Rattle.bx_day.specs.Reading.{Seated};
ghost use Rattle.bx_day.specs.Restoring.{IsState};
ghost use Rattle.bx_day.specs.RestoringInside.{with_live, AreLiveBelow};

use crate::entry::{Entry, Standing};
use crate::exchange::Exchange;
use crate::linking::linked;
use crate::outages::first_waiting;
use bx_base::ChannelSet;
use bx_channels::Channel;
use std::alloc::{AllocError, Global};

impl Exchange {
    /// An exchange that goes on from a state. It looks at each booking once, and sorts them by their starts.
    pub(crate) fn restored(
        alloc: Global,
        moment: u32,
        unlinked: u32,
        entries: Vec<Entry>,
        maintenance: ChannelSet,
    ) -> Result<Exchange, AllocError>
        requires { IsState (day_of moment unlinked entries.items maintenance) }
        ensures { IfOk result (λ x. x ≡ day_of moment unlinked entries.items maintenance) }
    {
        let links = linked(alloc, &entries)?;
        let live = live_anew(&entries);
        let waiting = first_waiting(&entries);
        Ok(Exchange {
            moment,
            unlinked,
            entries,
            maintenance,
            live,
            waiting,
            following: links.following,
            due: 0,
        })
    }
}

/// For each channel its live booking.
fn live_anew(entries: &[Entry]) -> [Option<u16>; 32]
    requires few { length entries.now ≤ MAX_BOOKINGS }
    requires seated { AllByRecursion Seated entries.now }
    requires apart { Pairs Apart entries.now }
    ensures { AreLiveBelow entries.now (length entries.now) result }
{
    let mut live = [None; 32];
    for index in 0..entries.len() as u16 {
        put_live(&mut live, entries, index);
    }
    live
}

/// Puts the booking of an index into the slot of its channel, where it is live.
fn put_live(live: &mut [Option<u16>; 32], entries: &[Entry], index: u16)
    requires inside { index < length entries.now }
    requires seated { AllByRecursion Seated entries.now }
    ensures { live.new ≡ with_live entries.now index live.old }
{
    let entry = entries[index as usize];
    if let (Standing::OnCall { .. }, Some(channel)) = (
        entry.standing,
        Channel::new(entry.channel),
    ) {
        live[channel.number() as usize] = Some(index);
    }
}

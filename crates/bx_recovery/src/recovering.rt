//! The day after a journal.

ghost use Rattle.std.specs.Prelude.{◌≡◌, ◌⊎◌, ℕ, List, Some, Err};
ghost use Rattle.bx_devices.specs.Watching.{device_of, is_faulted};
ghost use Rattle.bx_journal.specs.Follows.{IsFollowedFrom};
ghost use Rattle.bx_recovery.specs.Recovered.{goes_on_by, IsRecovered, IsPrefixRecovered};

use crate::following::Following;
use bx_day::Exchange;
use bx_devices::Watched;
use bx_journal::{JournalFault, Wanted, read_journal};
use std::io::Read;

/// An exchange after the events of a journal, and how many octets of that are whole lines, or the fault of `read_journal`. At a
/// fault the exchange is where the events before it have left it.
#[derive(Drop)]
pub struct Recovered {
    pub exchange: Exchange,
    pub whole: Result<u64, JournalFault>,
}

/// Reads the journal that is wanted to its end, and lets each of its events happen to the exchange, which stands at its opening, as
/// it is read.
pub fn recover_day<R: Read>(
    device: &mut Watched<R>,
    wanted: &Wanted,
    exchange: Exchange,
) -> Recovered
    // Of a device that does not tell its octets: some text was read of it, and the day is the one after the events of that.
    ensures read { IsFollowedFrom goes_on_by R.remaining device.old device.new wanted.now exchange result.exchange result.whole }
    ensures day { (text : List ℕ) → R.remaining (device_of device.old) ≡ Some text → IsRecovered wanted.now text exchange result.exchange result.whole }
    // After a crash while events were logged, in the journal of a head that is wanted, it is the day after a prefix of them, with each
    // whose logging was done.
    ensures prefix { IsPrefixRecovered wanted.now (R.remaining (device_of device.old)) exchange result.exchange result.whole }
    ensures unfaulted { (is_faulted device.new ≡ is_faulted device.old) ⊎ (result.whole ≡ Err JournalFault.ReadFailed) }
{
    let mut following = Following { exchange };
    let whole = read_journal(device, wanted, &mut following);
    let Following { exchange } = following;
    Recovered { exchange, whole }
}

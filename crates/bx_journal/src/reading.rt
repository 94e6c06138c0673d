//! Reading a journal, whose events are followed one by one.

ghost use Rattle.std.specs.Prelude.{◌≡◌, ◌≤◌, ◌++◌, ◌∷◌, [], List, Err, ◌⊎◌};
ghost use Rattle.bx_devices.specs.Watching.{is_faulted};
ghost use Rattle.bx_events.specs.Events.{LiveEvent};
ghost use Rattle.bx_journal.specs.Events.{logged_event};
ghost use Rattle.bx_journal.specs.Follows.{IsFollowedFrom};
ghost use Rattle.bx_journal.specs.Taking.{AreEventLinesFrom};

use crate::event::LoggedEvent;
use crate::event_reading::event_on;
use crate::fault::JournalFault;
use crate::head::Wanted;
use crate::head_reading::read_head;
use crate::line_reading::{LineEnd, WholeLine, next_line};
use crate::pieces::Pieces;
use crate::version::Version;
use bx_devices::Watched;
use std::io::Read;

/// What follows a journal as it is read: each event happens to it in turn. `followed` says what it is after events; it may
/// keep something of them besides, as a capture does.
pub trait Follower {
    ghost followed: { Self → List LiveEvent → Self → Type 0 };

    /// The next event happens.
    fn follow(&mut self, event: &LoggedEvent)
        ensures { followed self.old (logged_event event.now ∷ []) self.new };

    ghost follows_none: { (s : Self) → followed s [] s };

    ghost follows_on: { (s t u : Self) (xs ys : List LiveEvent) → followed s xs t → followed t ys u → followed s (xs ++ ys) u };
}

/// Reads the lines after a head of this version to the end, the first of which is line `first`, and answers how many octets stand
/// before what is torn.
fn read_events<R: Read, F: Follower>(
    pieces: &mut Pieces,
    device: &mut Watched<R>,
    follower: &mut F,
    version: Version,
    first: u64,
) -> Result<u64, JournalFault>
    requires { first ≤ pieces.old.taken }
    ensures lines { AreEventLinesFrom F.followed R.remaining device.old device.new follower.old follower.new version first pieces.old pieces.new result }
    ensures unfaulted { (is_faulted device.new ≡ is_faulted device.old) ⊎ (result ≡ Err JournalFault.ReadFailed) }
{
    let mut line = WholeLine::new();
    let mut n = first;
    while pieces.taken() < u64::MAX {
        let whole = pieces.taken();
        match next_line(pieces, device, &mut line) {
            Ok(LineEnd::Whole) => match event_on(version, &line) {
                Some(event) => follower.follow(&event),
                None => return Err(JournalFault::BadLine(n)),
            },
            Ok(LineEnd::TooLong) => return Err(JournalFault::BadLine(n)),
            Ok(LineEnd::Torn) => return Ok(whole),
            Err(_) => return Err(JournalFault::ReadFailed),
        }
        n += 1;
    }
    Err(JournalFault::ReadFailed)
}

/// Reads the journal that is wanted to its end, and lets its events be followed one by one. It keeps neither the text nor the
/// events, so a journal may be of any length. Answers how many octets are whole lines: what stands after them is what a
/// crash cut, and is dropped. What came to an exchange of the older rules is followed as that. Lines are read in order, and the first
/// fault is answered: `NotBegun` where the text ends inside its head, `OtherRules` at line 1, `OtherPlan` at line 2, `OtherDay` at
/// line 3, `BadLine` with the number of the line, or `ReadFailed`. The events before it were followed. What was read of a device that
/// does not tell its octets is some text, of which the same is said.
pub fn read_journal<R: Read, F: Follower>(
    device: &mut Watched<R>,
    wanted: &Wanted,
    follower: &mut F,
) -> Result<u64, JournalFault>
    ensures read { IsFollowedFrom F.followed R.remaining device.old device.new wanted.now follower.old follower.new result }
    ensures unfaulted { (is_faulted device.new ≡ is_faulted device.old) ⊎ (result ≡ Err JournalFault.ReadFailed) }
{
    let mut pieces = Pieces::new();
    let version = read_head(&mut pieces, device, wanted)?;
    let first = version.head_size() + 1;
    read_events(&mut pieces, device, follower, version, first)
}

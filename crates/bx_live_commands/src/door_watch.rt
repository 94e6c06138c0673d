//! The door of an office, while its day runs: whether whoever waits there can be let in.

ghost use Rattle.std.specs.Prelude.{◌≡◌, None};
ghost use Rattle.bx_live_commands.specs.DoorWatches.{is_to_be_told};
ghost use Rattle.bx_live_commands.specs.Watches.{IsWatched};

use bx_office_door::Lends;

/// How long it is not told again, in nanoseconds.
const MINUTE: u128 = 60_000_000_000;

/// Whether what was told when the clock showed that, if ever, is told again.
fn is_to_be_told(told: Option<u128>, shown: u128) -> bool
    ensures { result ≡ is_to_be_told told shown }
{
    match told {
        Some(told) => shown.saturating_sub(told) >= MINUTE,
        None => true,
    }
}

/// A door, and what the clock showed when it was told last that no file descriptor is left for whoever waits there.
#[derive(Drop)]
pub(crate) struct DoorWatch<S> {
    door: S,
    told: Option<u128>,
}

impl<S> DoorWatch<S> {
    /// A watch over this door, of which nothing was told yet.
    pub(crate) fn new(door: S) -> Self
        ensures { (result.door ≡ door) × (result.told ≡ None) }
    {
        DoorWatch { door, told: None }
    }
}

impl<S: Lends> DoorWatch<S> {
    /// Whether it is to be told now that no file descriptor is left for whoever waits: at most once in a minute of the clock.
    pub(crate) fn has_news(&mut self) -> bool
        ensures { IsWatched S.lent self.old self.new result }
    {
        let Some(mut door) = self.door.take() else {
            return false;
        };
        let shown = door.shown();
        let is_lacking = door.take_lack();
        self.door.put_back(door);
        if !is_lacking || !is_to_be_told(self.told, shown) {
            return false;
        }
        self.told = Some(shown);
        true
    }
}

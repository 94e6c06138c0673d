//! The ends of the link: how the day of each goes on, and what they do with a message that comes, and at a tick.

ghost use Rattle.std.specs.Prelude.{◌≡◌, ◌≤◌, ◌++◌, ◌∷◌, [], ℕ, List, true, false};
ghost use Rattle.std.specs.List.{flat_map};
ghost use Rattle.arrayvec.specs.ArrayVec.{ArrayVec};
ghost use Rattle.bx_events.specs.Events.{Event, Tick, Receive};
ghost use Rattle.bx_frames.specs.Frames.{frame_with, turn_frame};
ghost use Rattle.bx_frames.specs.Courses.{reply_frame, reply_messages};
ghost use Rattle.bx_events.specs.declared.moment.TheConstants.{LAST_MOMENT};

use arrayvec::ArrayVec;
use bx_q931::Octets;

/// A day of one end: how it goes on by an event, which messages it sends then, and what is written of them; its moment, and
/// the moment of the turn in which it hears what comes next.
pub trait Course {
    ghost next: { Self → Event → Self };

    ghost sent: { Self → Event → List (ArrayVec ℕ) };

    ghost text: { Self → Event → List ℕ };

    ghost moment_of: { Self → ℕ };

    ghost turn_of: { Self → ℕ };
}

/// An end of the link. Its day goes on by each message and each tick, and it may keep something of them, as a capture does:
/// `kept` says what it has kept of events.
pub trait End<L: Course> {
    ghost day: { Self → L };

    ghost kept: { Self → List Event → Self → Type 0 };

    /// Hears a message, and answers what is sent for it.
    fn hear(&mut self, message: &Octets) -> Option<Octets>
        ensures day { day self.new ≡ L.next (day self.old) (Receive message.now.items) }
        ensures sent { reply_messages result ≡ L.sent (day self.old) (Receive message.now.items) }
        ensures text { reply_frame result ≡ L.text (day self.old) (Receive message.now.items) }
        ensures kept { kept self.old (Receive message.now.items ∷ []) self.new };

    /// The next second, and what is sent then.
    fn next_second(&mut self) -> ArrayVec<Octets, 30>
        ensures day { day self.new ≡ L.next (day self.old) Tick }
        ensures sent { result.items ≡ L.sent (day self.old) Tick }
        ensures text { flat_map frame_with result.items ++ turn_frame (L.moment_of (day self.new)) ≡ L.text (day self.old) Tick }
        ensures kept { kept self.old (Tick ∷ []) self.new };

    /// The next second, where nothing happens in it and that is known at once; else false, and nothing is done.
    fn skip_quiet_second(&mut self) -> bool
        ensures day { result ≡ true → day self.new ≡ L.next (day self.old) Tick }
        ensures sent { result ≡ true → [] ≡ L.sent (day self.old) Tick }
        ensures text { result ≡ true → turn_frame (L.moment_of (day self.new)) ≡ L.text (day self.old) Tick }
        ensures kept { result ≡ true → kept self.old (Tick ∷ []) self.new }
        ensures stays { result ≡ false → self.new ≡ self.old };

    /// The moment of its day, 0 to 300,000.
    fn reached(&self) -> u32
        ensures value { result ≡ L.moment_of (day self.now) }
        ensures limit { result ≤ LAST_MOMENT };

    /// The moment of the turn in which it hears what comes next, 0 to 300,000.
    fn turn(&self) -> u32
        ensures value { result ≡ L.turn_of (day self.now) }
        ensures limit { result ≤ LAST_MOMENT };

    ghost keeps_nothing: { (s : Self) → kept s [] s };

    ghost keeps_on: { (s t u : Self) (xs ys : List Event) → kept s xs t → kept t ys u → kept s (xs ++ ys) u };
}

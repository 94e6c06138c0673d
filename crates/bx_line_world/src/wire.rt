//! The wire of a data link, and the clock beside it.

ghost use Rattle.std.specs.Prelude.{◌≡◌, ◌≤◌, ◌∷◌, ◌++◌, [], List, IfSome, length};
ghost use Rattle.bx_line_world.specs.Wires.{WireAct, Shown, Sent, Waited, came_in};

/// A wire with one frame at a time, and a clock. What it was asked and what it answered is a list of acts, in their order: `did`
/// says which may lie between two states of it. So what is claimed to have been read, sent or received was.
pub trait Wire {
    ghost did: { Self → List WireAct → Self → Type 0 };

    /// What the clock shows, in nanoseconds since 1970-01-01T00:00:00Z.
    fn shown(&mut self) -> u128
        ensures { did self.old (Shown result ∷ []) self.new };

    /// Hands over the octets of a frame. Whether they come nobody says.
    fn send(&mut self, octets: &[u8])
        ensures { did self.old (Sent octets.now ∷ []) self.new };

    /// Waits for a frame, so many nanoseconds at most. Its octets stand at the start of the room, and are so many.
    fn receive(&mut self, room: &mut [u8], wait: u64) -> Option<usize>
        ensures came { did self.old (Waited wait (came_in result room.new) ∷ []) self.new }
        ensures size { length room.new ≡ length room.old }
        ensures fits { IfSome result (λ n. n ≤ length room.old) };

    ghost did_nothing: { (w : Self) → did w [] w };

    ghost did_more: { (u v w : Self) (xs ys : List WireAct) → did u xs v → did v ys w → did u (xs ++ ys) w };
}

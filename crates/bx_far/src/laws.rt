//! What a live line's far end does otherwise than in a rehearsal, and that this is all.

ghost use Rattle.bx_far.specs.Laws.{IsAnsweredAtOnce, IsElseAsRehearsed};

/// A SETUP on a free channel, whose number the script answers after 0 seconds, is answered by CONNECT with the channel at its moment, and
/// its call is in U8 with T313 from then.
pub fn answered_at_once()
    ensures { IsAnsweredAtOnce }
{}

/// Any other message does just what it does in a rehearsal.
pub fn else_as_rehearsed()
    ensures { IsElseAsRehearsed }
{}

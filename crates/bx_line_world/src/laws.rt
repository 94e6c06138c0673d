//! What holds of every live day over a data link.

ghost use Rattle.std.specs.Prelude.{◌≡◌, ◌≤◌, ◌∷◌, List};
ghost use Rattle.bx_live.specs.Acts.{Act};
ghost use Rattle.bx_line_world.specs.TwoEnds.{IsOnce};
ghost use Rattle.bx_line_world.specs.declared.line_world.LineWorld.{LineWorld as PlainLineWorld};
ghost use Rattle.bx_line_world.specs.Laws.{NeverEnds, StartsApart, IsSeenAlive, ReadsSoMuch, DiskGoesAlong, AllGoOverLink};

use crate::wire::Wire;
use bx_journal::Disk;

/// It is never said that no second begins any more; where something was lost that the day has not heard of, as behind a start, no second begins
/// with a link before one has begun without; where a second begins with a link, and a second of the clock with it, the other end was asked
/// in it and has answered, and all that it was given is acknowledged; in one second at most 8,000 octets of messages are read; and the disk
/// of the journal has gone through the acts, so what holds of a run over a disk holds of it.
pub fn of_line<W: Wire, D: Disk>()
    ensures begins { NeverEnds W.did D.holds D.may_leave D.moment D.left_since D.has_failed }
    ensures apart { StartsApart W.did D.holds D.may_leave D.moment D.left_since D.has_failed }
    ensures alive { IsSeenAlive W.did D.holds D.may_leave D.moment D.left_since D.has_failed }
    ensures second { ReadsSoMuch W.did D.holds D.may_leave D.moment D.left_since D.has_failed }
    ensures kept { DiskGoesAlong W.did D.holds D.may_leave D.moment D.left_since D.has_failed }
{}

/// All acts of a day are one list of events of its data link, of which the table of ITU-T Q.921 says all: just their clock readings, waits and
/// frames went over the wire. What the day writes is given to the link, each message once and in order, up to the first of an act that is not
/// taken; and what it reads is a part of what waited and was delivered, in its order. So `once` of `bx_lapd` speaks of a live day.
pub fn over_a_link<W: Wire, D: Disk>()
    ensures { AllGoOverLink W.did D.holds D.may_leave D.moment D.left_since D.has_failed }
{}

/// Towards another end by the same table, over a medium that is first-in-first-out, delays without bound and loses what it likes: the other end
/// delivers a part of what the day gave, in its order, each message once at most; and what the day reads is a part of what waited and of what
/// the other end was given, in its order.
pub fn once_over_a_link<W: Wire, D: Disk>()
    ensures { (old new : PlainLineWorld W D) (acts : List Act) → IsOnce W.did old new acts }
{}

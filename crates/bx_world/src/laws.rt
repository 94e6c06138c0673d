//! What holds of every run over a journal.

ghost use Rattle.bx_world.specs.Laws.{LeavesPrefixOfRun, HasMomentOfRun, KnowsWhatWasSent, BeginsUnlessLost, KeepsDiskThrough};

use crate::peer::Peer;
use bx_journal::Disk;

/// A run over the disk of a journal, cut at any moment of it or after it. What a crash leaves has each event that was synced by any
/// earlier moment, and a prefix of those after; and whenever messages were written to a peer, a crash from then on leaves all that
/// was logged then, with the event for which they were written. So a restart knows everything that was ever sent.
pub fn nothing_is_lost<D: Disk>()
    ensures prefix { LeavesPrefixOfRun D.holds D.may_leave D.moment D.left_since D.has_failed }
    // The same of one run, whose acts are told up to that moment and after it.
    ensures moments { HasMomentOfRun D.holds D.may_leave D.moment D.left_since D.has_failed }
    ensures written { KnowsWhatWasSent D.holds D.may_leave D.moment D.left_since D.has_failed }
{}

/// Towards one peer: where it was not lost, each second began; and the disk of the journal has gone through the acts.
pub fn of_rehearsal<P: Peer, D: Disk>()
    ensures stays { BeginsUnlessLost P.wrote P.gave P.parted D.holds D.may_leave D.moment D.left_since D.has_failed }
    ensures kept { KeepsDiskThrough P.wrote P.gave P.parted D.holds D.may_leave D.moment D.left_since D.has_failed }
{}

//! A rehearsal of a day: towards one peer, and as fast as it goes.

ghost use Rattle.std.specs.Prelude.{◌≡◌};
ghost use Rattle.bx_world.specs.Rehearsals.{fault_of, begins_by};

use crate::peer::Peer;
use bx_devices::WriteFailed;
use bx_events::LiveEvent;
use bx_frames::{Frame, LinkFault};
use bx_journal::Disk;
use bx_live::{Begin, CannotLog, Log, Loss, World};
use bx_q931::Octets;

/// A world of one peer and no clock. A fault of its link ends the day.
#[derive(Drop)]
pub struct Rehearsal<P: Peer, D: Disk> {
    pub peer: P,
    pub log: Log<D>,
    /// The fault that ended the day, where one did.
    pub lost: Option<LinkFault>,
}

/// The fault by which a peer is lost that is dropped so.
fn fault_of(loss: Loss) -> LinkFault
    ensures { result ≡ fault_of loss }
{
    match loss {
        Loss::Late => LinkFault::Closed,
        Loss::Fault(fault) => fault,
    }
}

/// How a second begins towards a single peer.
fn begins_by(lost: Option<LinkFault>) -> Begin
    ensures { result ≡ begins_by lost }
{
    match lost {
        None => Begin::Joined,
        Some(_) => Begin::Ended,
    }
}

impl<P: Peer, D: Disk> World for Rehearsal<P, D> {
    ghost use Rattle.bx_live.specs.Chains.{Chain, chain_more};
    ghost use Rattle.bx_world.specs.Rehearsals.{Rehearses};
    ghost use Rattle.std.proofs.Common.{refl};

    ghost did = { Chain (Rehearses P.wrote P.gave P.parted D.holds D.may_leave D.moment D.left_since D.has_failed) };

    fn begin(&mut self, _second: u32) -> Begin {
        begins_by(self.lost)
    }

    fn drop_peer(&mut self, loss: Loss) {
        self.lost = Some(fault_of(loss));
    }

    fn log(&mut self, event: LiveEvent<'_>) -> Result<(), CannotLog> {
        self.log.log(event)
    }

    fn sync(&mut self) -> Result<(), CannotLog> {
        self.log.sync()
    }

    fn write_turn(&mut self, sent: &[Octets], moment: u32) -> Result<(), WriteFailed> {
        self.peer.write_turn(sent, moment)
    }

    fn write_message(&mut self, message: &Octets) -> Result<(), WriteFailed> {
        self.peer.write_message(message)
    }

    fn read(&mut self, room: u32) -> Result<Frame, LinkFault> {
        self.peer.read(room)
    }

    /// A rehearsal hears a message only where it waits for one, so each is answered before the next is read.
    fn take_waiting(&mut self) -> Option<Octets> {
        None
    }

    fn end_day(&mut self) {
        if self.lost.is_some() {
            return;
        }
        self.lost = self.peer.end_day();
    }

    ghost did_nothing = { λ s. refl };

    ghost did_more = { chain_more (Rehearses P.wrote P.gave P.parted D.holds D.may_leave D.moment D.left_since D.has_failed) };
}

//! What is sent for a message, as octets written for these tests alone.

use arrayvec::ArrayVec;
use bx_q931::Octets;

/// What is sent for a message.
#[derive(Clone, Copy, Debug, PartialEq, Eq)]
pub(crate) enum Reply {
    Nothing,
    ConnectAcknowledge,
    /// With a cause where it has one.
    Release(Option<u8>),
    ReleaseComplete(Option<u8>),
    /// A cause, and the state of the call.
    Status(u8, u8),
    /// The channel that is taken, exclusive.
    CallProceeding(u8),
}

/// The octets of a message, at most 16.
pub(crate) type Sent = ArrayVec<u8, 16>;

fn push_all(sent: &mut Sent, octets: &[u8]) {
    for octet in octets {
        if !sent.is_full() {
            sent.push(*octet);
        }
    }
}

/// The octets of a reply: its reference, the flag that it has, and the location in its cause.
pub(crate) fn sent_for(reply: Reply, reference: u16, flag: bool, location: u8) -> Option<Sent> {
    let mut sent = ArrayVec::new();
    let [high, low] = reference.to_be_bytes();
    push_all(
        &mut sent,
        &[0x08, 0x02, if flag { high | 0x80 } else { high }, low],
    );
    let kind = match reply {
        Reply::Nothing => return None,
        Reply::ConnectAcknowledge => 0x0F,
        Reply::Release(_) => 0x4D,
        Reply::ReleaseComplete(_) => 0x5A,
        Reply::Status(..) => 0x7D,
        Reply::CallProceeding(_) => 0x02,
    };
    push_all(&mut sent, &[kind]);
    match reply {
        Reply::Release(Some(cause)) | Reply::ReleaseComplete(Some(cause)) => {
            push_all(&mut sent, &[0x08, 0x02, location, cause | 0x80]);
        }
        Reply::Status(cause, state) => push_all(
            &mut sent,
            &[0x08, 0x02, location, cause | 0x80, 0x14, 0x01, state],
        ),
        Reply::CallProceeding(channel) => {
            push_all(&mut sent, &[0x18, 0x03, 0xA9, 0x83, channel | 0x80]);
        }
        _ => {}
    }
    Some(sent)
}

/// Whether these octets, or none, are what is sent.
pub(crate) fn is_sent(reply: Option<Octets>, sent: Option<Sent>) -> bool {
    match (reply, sent) {
        (Some(octets), Some(expected)) => octets.as_slice() == expected.as_slice(),
        (None, None) => true,
        _ => false,
    }
}

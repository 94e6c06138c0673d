//! A worked link, event by event.

use crate::pair::are_told;
use bx_lapd::{Done, Endpoint, write_frame};
use bx_q931::Octets;

#[derive(Clone, Copy)]
enum Act {
    Establish,
    Elapse,
    Give,
    Hear,
}

/// What goes on, whether it is at the network's end, the instant, what is done and with which octets; the frame that is sent,
/// if any; the letter of what is told, and the message that is delivered.
type Row = (
    &'static str,
    bool,
    u32,
    Act,
    &'static [u8],
    &'static [u8],
    &'static [u8],
    &'static [u8],
);

static ROWS: [Row; 19] = [
    (
        "SABME goes out",
        true,
        2607,
        Act::Establish,
        &[],
        &[0x02, 0x01, 0x7F, 0xDC, 0xE1],
        b"",
        &[],
    ),
    (
        "it is heard, and answered by UA",
        false,
        2607,
        Act::Hear,
        &[0x02, 0x01, 0x7F, 0xDC, 0xE1],
        &[0x02, 0x01, 0x73, 0xB0, 0x2B],
        b"+",
        &[],
    ),
    (
        "UA is heard",
        true,
        2607,
        Act::Hear,
        &[0x02, 0x01, 0x73, 0xB0, 0x2B],
        &[],
        b"+",
        &[],
    ),
    (
        "T203 is due",
        true,
        12607,
        Act::Elapse,
        &[],
        &[0x02, 0x01, 0x01, 0x01, 0x25, 0x97],
        b"",
        &[],
    ),
    (
        "the enquiry is heard",
        false,
        12607,
        Act::Hear,
        &[0x02, 0x01, 0x01, 0x01, 0x25, 0x97],
        &[0x02, 0x01, 0x01, 0x01, 0x25, 0x97],
        b"",
        &[],
    ),
    (
        "a message waits for the answer",
        true,
        12607,
        Act::Give,
        &[],
        &[],
        b"",
        &[],
    ),
    (
        "the answer is heard, and the message goes out",
        true,
        12607,
        Act::Hear,
        &[0x02, 0x01, 0x01, 0x01, 0x25, 0x97],
        &[0x02, 0x01, 0x00, 0x00, 0x74, 0x9F],
        b"",
        &[],
    ),
    (
        "a message of no octets is heard",
        false,
        12607,
        Act::Hear,
        &[0x02, 0x01, 0x00, 0x00, 0x74, 0x9F],
        &[0x02, 0x01, 0x01, 0x02, 0xBE, 0xA5],
        b"d",
        &[],
    ),
    (
        "T203 was started anew",
        false,
        13607,
        Act::Elapse,
        &[],
        &[],
        b"",
        &[],
    ),
    (
        "its acknowledgement is heard",
        true,
        13607,
        Act::Hear,
        &[0x02, 0x01, 0x01, 0x02, 0xBE, 0xA5],
        &[],
        b"",
        &[],
    ),
    (
        "a message",
        true,
        13607,
        Act::Give,
        &[0x1C],
        &[0x02, 0x01, 0x02, 0x00, 0x1C, 0x11, 0xAA],
        b"",
        &[],
    ),
    (
        "a message the other way",
        false,
        13607,
        Act::Give,
        &[0xFD, 0x77, 0x9B, 0xFF, 0xC1, 0x4D, 0x41, 0xB3, 0x46],
        &[
            0x00, 0x01, 0x00, 0x02, 0xFD, 0x77, 0x9B, 0xFF, 0xC1, 0x4D, 0x41, 0xB3, 0x46, 0xA5,
            0x2F,
        ],
        b"",
        &[],
    ),
    (
        "the first is heard",
        false,
        13607,
        Act::Hear,
        &[0x02, 0x01, 0x02, 0x00, 0x1C, 0x11, 0xAA],
        &[0x02, 0x01, 0x01, 0x04, 0x88, 0xC0],
        b"d",
        &[0x1C],
    ),
    (
        "a second one",
        true,
        13607,
        Act::Give,
        &[0xF4, 0x3F, 0x6F],
        &[0x02, 0x01, 0x04, 0x00, 0xF4, 0x3F, 0x6F, 0x3E, 0xD3],
        b"",
        &[],
    ),
    (
        "the one the other way is heard",
        true,
        13607,
        Act::Hear,
        &[
            0x00, 0x01, 0x00, 0x02, 0xFD, 0x77, 0x9B, 0xFF, 0xC1, 0x4D, 0x41, 0xB3, 0x46, 0xA5,
            0x2F,
        ],
        &[0x00, 0x01, 0x01, 0x02, 0xC8, 0x9C],
        b"d",
        &[0xFD, 0x77, 0x9B, 0xFF, 0xC1, 0x4D, 0x41, 0xB3, 0x46],
    ),
    (
        "a third one",
        true,
        13607,
        Act::Give,
        &[0x46, 0xEA, 0x47],
        &[0x02, 0x01, 0x06, 0x02, 0x46, 0xEA, 0x47, 0xF3, 0x4F],
        b"",
        &[],
    ),
    (
        "an acknowledgement of the first",
        true,
        13607,
        Act::Hear,
        &[0x02, 0x01, 0x01, 0x04, 0x88, 0xC0],
        &[],
        b"",
        &[],
    ),
    (
        "a fourth one",
        true,
        13607,
        Act::Give,
        &[0xFC],
        &[0x02, 0x01, 0x08, 0x02, 0xFC, 0xD5, 0x0D],
        b"",
        &[],
    ),
    (
        "a second one the other way",
        false,
        13607,
        Act::Give,
        &[],
        &[0x00, 0x01, 0x02, 0x04, 0x96, 0xD3],
        b"",
        &[],
    ),
];

fn did(end: &mut Endpoint, row: &Row) -> Done {
    let (_, _, now, act, octets, _, _, _) = *row;
    let now = u64::from(now);
    match act {
        Act::Establish => end.establish(now),
        Act::Elapse => end.elapse(now),
        Act::Hear => end.receive(octets, now),
        Act::Give => {
            let mut message = Octets::new();
            let _full = message.try_extend_from_slice(octets);
            end.give(message, now)
        }
    }
}

/// Whether the end does what the row says.
fn goes(end: &mut Endpoint, row: &Row) -> bool {
    let done = did(end, row);
    let (_, network, _, _, _, sent, told, message) = *row;
    let mut same = done.frames().len() == usize::from(!sent.is_empty());
    for frame in done.frames() {
        same &= write_frame(network, frame).as_slice() == sent;
    }
    same && are_told(done.told(), told, message)
}

#[test]
fn worked_link(rt: HostRuntime) {
    let mut near = Endpoint::new(true);
    let mut far = Endpoint::new(false);
    for row in &ROWS {
        let right = if row.1 {
            goes(&mut near, row)
        } else {
            goes(&mut far, row)
        };
        assert!(rt; right, "{}", row.0);
    }
}

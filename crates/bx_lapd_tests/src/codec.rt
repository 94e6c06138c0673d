//! Frames as octets, and check sequences that are known from elsewhere.

use bx_lapd::check_sequence::check_sequence;
use bx_lapd::{Frame, Supervisory, Unnumbered, read_frame, write_frame};
use bx_q931::Octets;

/// A frame in a table.
#[derive(Clone, Copy)]
enum Shape {
    Information(bool, u8, u8, &'static [u8]),
    Numbered(Supervisory, bool, bool, u8),
    Plain(Unnumbered, bool),
}

/// What it is, whether the network sends it, the frame, and its octets.
type Row = (&'static str, bool, Shape, &'static [u8]);

static FRAMES: [Row; 14] = [
    (
        "SABME of the network",
        true,
        Shape::Plain(Unnumbered::Sabme, true),
        &[0x02, 0x01, 0x7F, 0xDC, 0xE1],
    ),
    (
        "SABME of the user",
        false,
        Shape::Plain(Unnumbered::Sabme, true),
        &[0x00, 0x01, 0x7F, 0x64, 0x54],
    ),
    (
        "DISC",
        false,
        Shape::Plain(Unnumbered::Disc, true),
        &[0x00, 0x01, 0x53, 0x0A, 0xBF],
    ),
    (
        "UA of the network",
        true,
        Shape::Plain(Unnumbered::Ua, true),
        &[0x00, 0x01, 0x73, 0x08, 0x9E],
    ),
    (
        "UA of the user",
        false,
        Shape::Plain(Unnumbered::Ua, true),
        &[0x02, 0x01, 0x73, 0xB0, 0x2B],
    ),
    (
        "DM",
        true,
        Shape::Plain(Unnumbered::Dm, false),
        &[0x00, 0x01, 0x0F, 0xE3, 0x27],
    ),
    (
        "UI",
        true,
        Shape::Plain(Unnumbered::Ui, false),
        &[0x02, 0x01, 0x03, 0x37, 0x58],
    ),
    (
        "XID",
        false,
        Shape::Plain(Unnumbered::Xid, true),
        &[0x00, 0x01, 0xBF, 0x68, 0x92],
    ),
    (
        "RR command",
        true,
        Shape::Numbered(Supervisory::ReceiveReady, true, true, 0),
        &[0x02, 0x01, 0x01, 0x01, 0x25, 0x97],
    ),
    (
        "RR response",
        true,
        Shape::Numbered(Supervisory::ReceiveReady, false, true, 127),
        &[0x00, 0x01, 0x01, 0xFF, 0xA2, 0xB0],
    ),
    (
        "RNR",
        false,
        Shape::Numbered(Supervisory::ReceiveNotReady, false, false, 5),
        &[0x02, 0x01, 0x05, 0x0A, 0x96, 0x4E],
    ),
    (
        "REJ",
        false,
        Shape::Numbered(Supervisory::Reject, false, true, 64),
        &[0x02, 0x01, 0x09, 0x81, 0xED, 0xDD],
    ),
    (
        "I without octets",
        true,
        Shape::Information(false, 0, 0, &[]),
        &[0x02, 0x01, 0x00, 0x00, 0x74, 0x9F],
    ),
    (
        "I",
        false,
        Shape::Information(true, 127, 3, &[0x08, 0x02]),
        &[0x00, 0x01, 0xFE, 0x07, 0x08, 0x02, 0x75, 0x44],
    ),
];

fn frame_of(shape: Shape) -> Frame {
    match shape {
        Shape::Information(poll, sent, received, octets) => {
            let mut message = Octets::new();
            let _full = message.try_extend_from_slice(octets);
            Frame::Information {
                poll,
                sent,
                received,
                message,
            }
        }
        Shape::Numbered(kind, command, poll, received) => Frame::Numbered {
            kind,
            command,
            poll,
            received,
        },
        Shape::Plain(kind, poll) => Frame::Plain { kind, poll },
    }
}

fn is_shape(frame: &Frame, shape: Shape) -> bool {
    match (frame, shape) {
        (
            Frame::Information {
                poll,
                sent,
                received,
                message,
            },
            Shape::Information(p, s, r, octets),
        ) => *poll == p && *sent == s && *received == r && message.as_slice() == octets,
        (
            Frame::Numbered {
                kind,
                command,
                poll,
                received,
            },
            Shape::Numbered(k, c, p, r),
        ) => *kind == k && *command == c && *poll == p && *received == r,
        (Frame::Plain { kind, poll }, Shape::Plain(k, p)) => *kind == k && *poll == p,
        _ => false,
    }
}

/// Whether the frame is written as these octets, and read from them by the other side.
fn goes_over(row: &Row) -> bool {
    let (_, network, shape, octets) = *row;
    let is_written = write_frame(network, &frame_of(shape)).as_slice() == octets;
    match read_frame(!network, octets) {
        Ok(frame) => is_written && is_shape(&frame, shape),
        Err(_) => false,
    }
}

#[test]
fn frames_and_octets(rt: HostRuntime) {
    for row in &FRAMES {
        assert!(rt; goes_over(row), "{}", row.0);
    }
}

/// Whose it is, the octets, and their check sequence: the check value of catalogues, the frames of ITU-T X.25, Appendix I, a SABME of a
/// user's side, and what a frame leaves with its own check sequence after it.
static SUMS: [(&str, &[u8], u16); 5] = [
    ("the nine digits", b"123456789", 0x906E),
    ("SABM of X.25", &[0x03, 0x3F], 0xEC5B),
    ("UA of X.25", &[0x01, 0x73], 0x5783),
    ("SABME of a user", &[0x00, 0x01, 0x7F], 0x5464),
    ("SABM of X.25, closed", &[0x03, 0x3F, 0x5B, 0xEC], 0x0F47),
];

#[test]
fn known_check_sequences(rt: HostRuntime) {
    for (name, octets, expected) in &SUMS {
        let sum = check_sequence(octets);
        assert_eq!(rt; sum, *expected, "{name}");
    }
}

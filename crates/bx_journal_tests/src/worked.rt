//! A journal that the tests share.

use bx_calls::Rules;
use bx_journal::{Amendment, Event, Head, JournalDay, LiveEvent};

/// The digest of some plan.
pub static PLAN: [u8; 32] = [0xAB; 32];

/// Some live day.
pub static HEAD: Head = Head {
    plan: [0xAB; 32],
    day: JournalDay::Live {
        first: 1_767_222_000,
        pace: 60,
    },
};

/// A tick, a STATUS ENQUIRY, a second without a link, a tick, a message without octets, and a booking that is sold.
pub static TEXT: &[u8] =
    b"bx-journal 2 rules 3\nplan abababababababababababababababababababababababababababababababab\nday live 1767222000 60\ntick\nheard 0802010075\ndown\ntick\nheard \nsold 60 90 5 1234 in\n";

/// A booking that is given up, and one that is changed.
pub static AMENDED: &[u8] =
    b"bx-journal 2 rules 3\nplan abababababababababababababababababababababababababababababababab\nday live 1767222000 60\ncancelled 12\nchanged 12 60 90 5 1234 - in\n";

/// A channel that is lost, a booking that waits, and one that the exchange gives up.
pub static LOST: &[u8] =
    b"bx-journal 2 rules 3\nplan abababababababababababababababababababababababababababababababab\nday live 1767222000 60\nout 4\ndelayed 12 60 90 5 1234 - in\ndropped 7\n";

/// Where the head ends, and each event after it.
pub static ENDS: [u64; 7] = [114, 119, 136, 141, 146, 153, 174];

/// The same events of a day that was rehearsed.
pub static REHEARSED: &[u8] =
    b"bx-journal 2 rules 3\nplan abababababababababababababababababababababababababababababababab\nday rehearsed\ntick\nheard 0802010075\ndown\ntick\nheard \nsold 60 90 5 1234 in\n";

/// The same events in a journal of the older rules.
pub static OLDER: &[u8] =
    b"bx-journal 2 rules 2\nplan abababababababababababababababababababababababababababababababab\nday live 1767222000 60\ntick\nheard 0802010075\ndown\ntick\nheard \nsold 60 90 5 1234 in\n";

/// The same events in a journal of version 1.
pub static UNDATED: &[u8] =
    b"bx-journal 1\nplan abababababababababababababababababababababababababababababababab\ntick\nheard 0802010075\ndown\ntick\nheard \nsold 60 90 5 1234 in\n";

pub const TICK: LiveEvent<'static> = LiveEvent::OnLink(Event::Tick);

pub const DOWN: LiveEvent<'static> = LiveEvent::WithoutLink(Rules::Three);

pub const SOLD: LiveEvent<'static> = LiveEvent::Amended(Amendment::Sold, b"60 90 5 1234 in");

/// A STATUS ENQUIRY.
pub static ENQUIRY: [u8; 5] = [0x08, 0x02, 0x01, 0x00, 0x75];

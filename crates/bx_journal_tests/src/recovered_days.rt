//! The day of an exchange after a journal.

use crate::worked::HEAD;
use bx_calls::{CallState, Rules};
use bx_channels::Channel;
use bx_day::{Exchange, Outcome};
use bx_devices::Watched;
use bx_journal::JournalFault;
use bx_recovery::recover_day;
use bx_worked_days::exchange;
use std::alloc::Global;
use std::test::Fail;

/// Two seconds on the link and one without, a booking that is sold, a CONNECT for the first booking's call, a second on the
/// link, and a line that was cut.
static TEXT: &[u8] =
    b"bx-journal 2 rules 3\nplan abababababababababababababababababababababababababababababababab\nday live 1767222000 60\ntick\ndown\nsold 70 80 5 1234 out\ntick\nheard 0802800107\ntick\ntic";

/// The same with a sixth event that is none.
static DAMAGED: &[u8] =
    b"bx-journal 2 rules 3\nplan abababababababababababababababababababababababababababababababab\nday live 1767222000 60\ntick\ndown\nsold 70 80 5 1234 out\ntick\nheard 0802800107\ntock\n";

/// The moment, what is on channel 1, and what has become of the booking.
fn outcome_at(exchange: &Exchange) -> Option<(u32, Option<(u16, CallState)>, Option<Outcome>)> {
    let channel = Channel::new(1)?;
    Some((
        exchange.moment(),
        exchange.on_channel(channel),
        exchange.outcome(1),
    ))
}

/// The day of these events, made by hand, with the last second or without.
fn by_hand(alloc: Global, has_last: bool) -> Option<Exchange> {
    let mut exchange = exchange(alloc)?;
    let _sent = exchange.tick();
    exchange.second_without_link(Rules::Three);
    let _sent = exchange.tick();
    let _reply = exchange.receive(&[0x08, 0x02, 0x80, 0x01, 0x07]);
    if has_last {
        let _sent = exchange.tick();
    }
    Some(exchange)
}

/// Whether the day after a text is that one, and the journal is read so.
fn is_day(
    alloc: Global,
    text: &[u8],
    has_last: bool,
    whole: Result<u64, JournalFault>,
) -> Option<bool> {
    let mut device = Watched::new(text);
    let recovered = recover_day(&mut device, &HEAD.wanted(), exchange(alloc)?);
    let expected = by_hand(alloc, has_last)?;
    Some(outcome_at(&recovered.exchange)? == outcome_at(&expected)? && recovered.whole == whole)
}

#[test]
fn the_day_goes_on_by_each_event(rt: HostRuntime) -> Result<(), Fail> {
    let alloc = rt.alloc();
    assert!(rt; is_day(alloc, TEXT, true, Ok(173)) == Some(true));
    assert!(rt; is_day(alloc, DAMAGED, false, Err(JournalFault::BadLine(9))) == Some(true));
    Ok(())
}

//! A day of one turn that is captured, at each of its ends, into files that fail at each place.

use crate::captured_octets::packet;
use bx_calls::CallState;
use bx_capture::{Captured, Direction};
use bx_cases::Failing;
use bx_cases::messages::{CONNECT_ACKNOWLEDGE, CONNECT_CHANNEL_1, SETUP};
use bx_channels::Channel;
use bx_devices::Watched;
use bx_link::run_far_day;
use bx_sessions::run_day;
use bx_worked_days::{exchange, far_end};
use std::alloc::Global;

/// CONNECT and the end of turn, as frames to the exchange.
static TO_EXCHANGE: [u8; 20] = [
    1, 0, 10, 8, 2, 128, 1, 7, 24, 3, 169, 131, 129, 2, 0, 4, 0, 0, 0, 1,
];

/// SETUP, the end of turn and the end of the day, as frames to the far end.
static TO_FAR_END: [u8; 35] = [
    1, 0, 22, 8, 2, 0, 1, 5, 161, 4, 2, 136, 144, 24, 3, 169, 131, 129, 112, 5, 129, 49, 50, 51,
    52, 2, 0, 4, 0, 0, 0, 1, 3, 0, 0,
];

/// The packets of these messages, at one second.
fn packets(alloc: Global, second: u32, messages: &[(Direction, &[u8])]) -> Option<Vec<u8>> {
    let mut all = Vec::new(alloc);
    for (direction, octets) in messages {
        let packet = packet(alloc, second, *direction, octets)?;
        all.extend_from_slice(&packet).ok()?;
    }
    Some(all)
}

/// Whether a file that fails after so many writes has a prefix of the packets, all of them where it does not fail.
fn holds(file: &[u8], whole: &[u8], is_whole: bool) -> bool {
    whole.starts_with(file) && (file.len() == whole.len()) == is_whole
}

/// Whether the exchange's day goes on in the same way, and its capture is a prefix, where the file takes so many octets.
fn exchange_captured(alloc: Global, calls: u32) -> Option<bool> {
    let whole = packets(
        alloc,
        1001,
        &[
            (Direction::Sent, SETUP),
            (Direction::Received, CONNECT_CHANNEL_1),
            (Direction::Sent, CONNECT_ACKNOWLEDGE),
        ],
    )?;
    let file = Watched::new(Failing::new(Vec::new(alloc), calls, 1));
    let mut end = Captured::new(exchange(alloc)?, Some(file), 1000);
    let mut reader = Watched::new(TO_EXCHANGE.as_slice());
    let mut writer = Watched::new(Vec::new(alloc));
    let done = run_day(&mut end, &mut reader, &mut writer, 1);
    let is_whole = end.is_whole();
    let Captured {
        end: exchange,
        file,
        first: _,
    } = end;
    let kept = file?.into_inner().into_inner();
    let is_active = exchange.on_channel(Channel::new(1)?) == Some((1, CallState::Active));
    Some(
        done.is_ok()
            && is_active
            && holds(kept.as_slice(), &whole, calls as usize >= whole.len())
            && is_whole == (calls as usize >= whole.len()),
    )
}

#[test]
fn exchange_days(rt: HostRuntime) {
    for calls in [0, 1, 35, 57, 58, 59, 103, 104, 144, 145, 200] {
        assert!(rt;
            exchange_captured(rt.alloc(), calls) == Some(true),
            "{calls} writes"
        );
    }
}

/// The same of the far end's day.
fn far_captured(alloc: Global, calls: u32) -> Option<bool> {
    let whole = packets(
        alloc,
        1,
        &[
            (Direction::Received, SETUP),
            (Direction::Sent, CONNECT_CHANNEL_1),
        ],
    )?;
    let file = Watched::new(Failing::new(Vec::new(alloc), calls, 1000));
    let mut end = Captured::new(far_end(alloc)?, Some(file), 0);
    let mut reader = Watched::new(TO_FAR_END.as_slice());
    let mut writer = Watched::new(Vec::new(alloc));
    let done = run_far_day(&mut end, &mut reader, &mut writer);
    let is_whole = end.is_whole();
    let Captured {
        end: far,
        file,
        first: _,
    } = end;
    let kept = file?.into_inner().into_inner();
    Some(
        done.is_ok()
            && far.moment() == 1
            && holds(kept.as_slice(), &whole, calls >= 2)
            && is_whole == (calls >= 2),
    )
}

/// Whether a day without a file has a whole capture.
fn without_file(alloc: Global) -> Option<bool> {
    let file: Option<Watched<Vec<u8>>> = None;
    let mut end = Captured::new(far_end(alloc)?, file, 0);
    let mut reader = Watched::new(TO_FAR_END.as_slice());
    let mut writer = Watched::new(Vec::new(alloc));
    let done = run_far_day(&mut end, &mut reader, &mut writer);
    Some(done.is_ok() && end.is_whole() && end.into_end().moment() == 1)
}

#[test]
fn far_days(rt: HostRuntime) {
    for calls in 0..4 {
        assert!(rt;
            far_captured(rt.alloc(), calls) == Some(true),
            "{calls} writes"
        );
    }
    assert!(rt; without_file(rt.alloc()) == Some(true), "no file");
}

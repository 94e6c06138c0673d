//! Drawn days with seconds without a link: state by state against a second exchange, and skipped.

use crate::drawn_days::Drawn;
use crate::quiet_seconds::look_same;
use crate::second_exchange::Second;
use bx_cases::SHARE;
use bx_day::Exchange;
use bx_events::Rules;
use bx_worked_days::exchange_of;
use std::alloc::Global;
use std::test::Fail;

const DAYS: u32 = 200;

/// What came about without a link on some day.
#[derive(Clone, Copy, PartialEq, Debug)]
struct Seen {
    /// A call stayed Active, was cleared at its end, or waited with its CONNECT, with its SETUP or with its release.
    active: bool,
    ended: bool,
    connect: bool,
    setup: bool,
    release: bool,
    /// A call that rang is to be asked for.
    rings: bool,
    /// A call that was asked for was released by what was reported of it, became Active, or was not known, and offered again.
    reported: bool,
    connected: bool,
    unknown: bool,
    /// A call was refused, and offered again.
    refused: bool,
}

const NOTHING: Seen = Seen {
    active: false,
    ended: false,
    connect: false,
    setup: false,
    release: false,
    rings: false,
    reported: false,
    connected: false,
    unknown: false,
    refused: false,
};

const ALL: Seen = Seen {
    active: true,
    ended: true,
    connect: true,
    setup: true,
    release: true,
    rings: true,
    reported: true,
    connected: true,
    unknown: true,
    refused: true,
};

impl Seen {
    /// Looks at the state of a call before and after seconds without a link.
    fn looks(&mut self, before: u8, following: u8) {
        match (before, following) {
            (10, 10) => self.active = true,
            (10, 12) => self.ended = true,
            (3, 3) => self.connect = true,
            (6, 6) => self.setup = true,
            (19, 19) => self.release = true,
            (7 | 9, 6) => self.rings = true,
            _ => {}
        }
    }

    /// Looks at the row and the state of a call before and after a report of this call state.
    fn hears(&mut self, report: &[u8; 8], before: (u16, u8), following: (u16, u8)) {
        let is_named = before.0 == u16::from(report[3]) && report[2] == 0x80;
        match (before.1, following.1) {
            (10, 19) => self.reported = true,
            (6, 10) => self.connected = true,
            (6, 6) if is_named && report[7] == 0 => self.unknown = true,
            _ => {}
        }
    }

    /// Looks at the row and the state of a call before and after a refusal.
    fn is_refused(&mut self, refusal: &[u8; 9], before: (u16, u8), following: (u16, u8)) {
        if before == (u16::from(refusal[3]), 6) && following == before {
            self.refused = true;
        }
    }
}

/// Brings the same octets to all three.
fn hear(exchange: &mut Exchange, skipping: &mut Exchange, second: &mut Second, octets: &[u8]) {
    exchange.receive(octets);
    skipping.receive(octets);
    second.hears(octets);
}

/// Brings a drawn report to all three, and at times a drawn refusal.
fn hear_drawn(
    exchange: &mut Exchange,
    skipping: &mut Exchange,
    second: &mut Second,
    drawn: &mut Drawn,
    seen: &mut Seen,
) {
    let report = drawn.report();
    let refusal = drawn.refusal();
    let offered = (second.on_channel(1), second.on_channel(2));
    hear(exchange, skipping, second, &report);
    let told = (second.on_channel(1), second.on_channel(2));
    seen.hears(&report, offered.0, told.0);
    seen.hears(&report, offered.1, told.1);
    if drawn.below(3) == 0 {
        hear(exchange, skipping, second, &refusal);
        seen.is_refused(&refusal, told.0, second.on_channel(1));
        seen.is_refused(&refusal, told.1, second.on_channel(2));
    }
}

/// Lets so many seconds go by, and answers whether the exchanges agree after each.
fn go_on(exchange: &mut Exchange, second: &mut Second, seconds: u32, linked: bool) -> bool {
    let mut same = true;
    for _second in 0..seconds {
        if linked {
            exchange.tick();
        } else {
            exchange.second_without_link(Rules::Three);
        }
        second.second(linked);
        same &= second.agrees(exchange);
    }
    same
}

/// The same seconds of another exchange, those without a link at once.
fn skip(exchange: &mut Exchange, seconds: u32, linked: bool) {
    if linked {
        for _second in 0..seconds {
            exchange.tick();
        }
    } else {
        exchange.skip_without_link(seconds, Rules::Three);
    }
}

/// The states of the calls on both channels.
fn states(second: &Second) -> (u8, u8) {
    (second.on_channel(1).1, second.on_channel(2).1)
}

/// Whether both exchanges are the same day, up to what they say of it.
fn are_alike(exchange: &Exchange, skipping: &Exchange) -> bool {
    skipping.moment() == exchange.moment()
        && skipping.quiet() == exchange.quiet()
        && look_same(exchange, skipping)
}

/// Whether a drawn day goes as the second exchange says, and in the same way where it skips.
fn day_goes(alloc: Global, seed: u32, seen: &mut Seen) -> Option<bool> {
    let mut drawn = Drawn::of(seed);
    let rows = drawn.rows();
    let mut second = Second::opened(&rows);
    let mut exchange = exchange_of(alloc, &rows)?;
    let mut skipping = exchange_of(alloc, &rows)?;
    let mut same = true;
    for _stretch in 0..48 {
        let linked = drawn.below(4) > 0;
        let seconds = drawn.below(if linked { 6 } else { 20 });
        let before = states(&second);
        same &= go_on(&mut exchange, &mut second, seconds, linked);
        skip(&mut skipping, seconds, linked);
        same &= are_alike(&exchange, &skipping);
        if !linked && seconds > 0 {
            seen.looks(before.0, states(&second).0);
            seen.looks(before.1, states(&second).1);
        }
        hear_drawn(&mut exchange, &mut skipping, &mut second, &mut drawn, seen);
        let octets = drawn.message();
        hear(&mut exchange, &mut skipping, &mut second, &octets);
        same &= second.agrees(&exchange);
    }
    Some(same)
}

#[test]
fn drawn_outages(rt: HostRuntime) -> Result<(), Fail> {
    let mut seen = NOTHING;
    for seed in 0..DAYS / SHARE {
        if day_goes(rt.alloc(), seed, &mut seen) != Some(true) {
            return Err(Fail::new(seed));
        }
    }
    // Reports that do not fit, and those of calls that are offered, are few: a share of the days may have none.
    if SHARE > 1 {
        seen.reported = true;
        seen.connected = true;
        seen.unknown = true;
        seen.refused = true;
    }
    assert_eq!(rt; seen, ALL, "what came about");
    Ok(())
}

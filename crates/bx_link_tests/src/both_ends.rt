//! Both ends together: a whole day turn by turn, and one turn of both in one call.

use crate::frames::{
    CONNECT, CONNECT_ACKNOWLEDGE, DISCONNECT, END_OF_DAY, OPENED, RELEASE, RELEASE_COMPLETE,
    connection, joined,
};
use bx_day::Exchange;
use bx_devices::Watched;
use bx_far::Far;
use bx_link::FarSession;
use bx_sessions::{Session, run_both_ends};
use bx_worked_days::{exchange, far_end};
use std::alloc::Global;
use std::mem;
use std::test::Fail;

/// Both ends, and what the exchange has replied since its turn was opened.
#[derive(Drop)]
struct Line {
    exchange: Exchange,
    session: Session,
    far: Far,
    far_session: FarSession,
    replies: Vec<u8>,
}

impl Line {
    fn new(alloc: Global) -> Option<Line> {
        Some(Line {
            exchange: exchange(alloc)?,
            session: Session::new(),
            far: far_end(alloc)?,
            far_session: FarSession::new(),
            replies: Vec::new(alloc),
        })
    }

    /// Opens a turn. Answers what the exchange has written up to its end of turn.
    fn open(&mut self, alloc: Global) -> Option<Vec<u8>> {
        let replies = mem::replace(&mut self.replies, Vec::new(alloc));
        let mut writer = Watched::new(replies);
        if self.session.turn_is_open() {
            return None;
        }
        self.session
            .open_turn(&mut self.exchange, &mut writer)
            .ok()?;
        Some(writer.into_inner())
    }

    /// The far end's turn on what the exchange told it, and what it answers.
    fn take(&mut self, alloc: Global, told: &[u8]) -> Option<Vec<u8>> {
        let mut reader = Watched::new(told);
        let mut writer = Watched::new(Vec::new(alloc));
        self.far_session
            .far_turn(&mut self.far, &mut reader, &mut writer)
            .ok()?;
        Some(writer.into_inner())
    }

    /// Closes the turn on what the far end answered.
    fn close(&mut self, alloc: Global, answered: &[u8]) -> Option<()> {
        let mut reader = Watched::new(answered);
        let mut writer = Watched::new(Vec::new(alloc));
        if !self.session.turn_is_open() {
            return None;
        }
        self.session
            .close_turn(&mut self.exchange, &mut reader, &mut writer)
            .ok()?;
        self.replies = writer.into_inner();
        Some(())
    }
}

/// What stands before the end of the turn in what the exchange writes, and in what the far end writes.
fn spoken(moment: u8) -> (&'static [u8], &'static [u8]) {
    match moment {
        1 => (&OPENED[..25], CONNECT),
        2 => (CONNECT_ACKNOWLEDGE, &[]),
        60 => (DISCONNECT, RELEASE),
        61 => (RELEASE_COMPLETE, &[]),
        _ => (&[], &[]),
    }
}

/// Whether these are the prefix's octets, and after them the end of the turn with this moment.
fn ends_with(octets: &[u8], prefix: &[u8], moment: u8) -> bool {
    octets.strip_prefix(prefix) == Some([2, 0, 4, 0, 0, 0, moment].as_slice())
}

/// Whether both ends say in this turn what they should.
fn turns(alloc: Global, line: &mut Line, moment: u8) -> Option<bool> {
    let (to_far, to_exchange) = spoken(moment);
    let told = line.open(alloc)?;
    let answered = line.take(alloc, &told)?;
    line.close(alloc, &answered)?;
    Some(ends_with(&told, to_far, moment) && ends_with(&answered, to_exchange, moment))
}

/// Whether the booking was carried.
fn is_carried(alloc: Global, exchange: &Exchange) -> bool {
    let mut outcomes = Watched::new(Vec::new(alloc));
    let written = exchange.write_outcomes(&[], &mut outcomes).is_ok();
    let text = b"1 carried 1 60\nmaintenance none\n";
    written && outcomes.into_inner().as_slice() == text.as_slice()
}

/// Whether the end of the day ends the far end's session, and nothing is written.
fn is_ended(alloc: Global, far: &mut Far, session: &mut FarSession) -> bool {
    let mut reader = Watched::new(END_OF_DAY);
    let mut writer = Watched::new(Vec::new(alloc));
    let ended = session.far_turn(far, &mut reader, &mut writer) == Ok(false);
    ended && session.is_over() && writer.into_inner().is_empty()
}

#[test]
fn day_of_both_ends(rt: HostRuntime) -> Result<(), Fail> {
    let mut line = Line::new(rt.alloc()).ok_or("ends")?;
    for moment in 1..63 {
        let turned = turns(rt.alloc(), &mut line, moment);
        assert!(rt; turned == Some(true), "{moment}");
    }
    assert!(rt; is_carried(rt.alloc(), &line.exchange), "outcomes");
    let Line {
        mut far,
        mut far_session,
        ..
    } = line;
    let ended = is_ended(rt.alloc(), &mut far, &mut far_session);
    assert!(rt; ended, "the end of the day");
    Ok(())
}

/// Whether one turn of both writes what each end is given of the other.
fn turns_at_once(alloc: Global) -> Option<bool> {
    let told = joined(alloc, [OPENED, CONNECT_ACKNOWLEDGE, END_OF_DAY])?;
    let answered = joined(alloc, [CONNECT, &[2, 0, 4, 0, 0, 0, 1], &[]])?;
    let mut exchange = exchange(alloc)?;
    let mut far = far_end(alloc)?;
    let mut near = connection(alloc, &answered);
    let mut distant = connection(alloc, &told);
    let result = run_both_ends(&mut exchange, &mut near, &mut far, &mut distant, 1);
    let is_told = near.writer.into_inner().as_slice() == told.as_slice();
    let is_answered = distant.writer.into_inner().as_slice() == answered.as_slice();
    let is_ticked = exchange.moment() == 1 && far.moment() == 1;
    Some(result == Ok(()) && is_told && is_answered && is_ticked)
}

#[test]
fn one_turn_of_both_ends(rt: HostRuntime) {
    assert!(rt; turns_at_once(rt.alloc()) == Some(true), "one turn");
}

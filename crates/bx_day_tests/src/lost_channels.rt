//! Drawn days on which calls are given up without an answer to their release: what is planned on their channels moves to the others.

use arrayvec::ArrayVec;
use bx_base::ChannelSet;
use bx_cases::SHARE;
use bx_channels::Channel;
use bx_day::{Entry, Exchange, Standing};
use bx_devices::WriteFailed;
use bx_events::{Amendment, LiveEvent};
use bx_frames::{Frame, LinkFault};
use bx_live::{Begin, CannotLog, Loss, World};
use bx_market::{Answer, Market, Request, run_market};
use bx_q931::Octets;
use bx_sales::NoChange;
use bx_worked_days::{Row, exchange_of};
use std::alloc::Global;
use std::test::Fail;

/// How many days are drawn, and how long they are.
const DAYS: u32 = 120;

const LAST: u32 = 240;

/// The most bookings of a day.
const ROWS: usize = 48;

/// A linear congruential generator (D. H. Lehmer, 1951) modulo 2^32, whose high bits are taken.
#[derive(Drop)]
struct Generator {
    state: u32,
}

impl Generator {
    fn below(&mut self, limit: u32) -> u32 {
        self.state = self
            .state
            .wrapping_mul(1_664_525)
            .wrapping_add(1_013_904_223);
        (self.state >> 12) % limit.max(1)
    }
}

/// What was done on some day.
#[derive(Clone, Copy, PartialEq, Debug)]
struct Seen {
    delayed: bool,
    dropped: bool,
    left: bool,
    missed: bool,
}

const NOTHING: Seen = Seen {
    delayed: false,
    dropped: false,
    left: false,
    missed: false,
};

const ALL: Seen = Seen {
    delayed: true,
    dropped: true,
    left: true,
    missed: true,
};

/// A far end that answers each offer at once, and each release but those of some calls.
#[derive(Drop)]
struct LostWorld {
    silent: [bool; 64],
    replies: ArrayVec<Octets, 64>,
    moment: u32,
    /// The moment from which on each channel was in maintenance.
    lost_at: [Option<u32>; 32],
    dropped: usize,
    seen: Seen,
    /// Whether after each leaving that was done whole nothing waits on a channel that is lost but what ends with the next second.
    is_left: bool,
}

/// Whether a booking waits on a channel that is in maintenance, with more than the next second of it left.
fn is_any_behind(exchange: &Exchange) -> bool {
    for entry in exchange.entries() {
        if let Some(channel) = Channel::new(entry.channel) {
            let is_long = entry.booking.end() > exchange.moment().saturating_add(1);
            if entry.standing.is_waiting() && exchange.in_maintenance(channel) && is_long {
                return true;
            }
        }
    }
    false
}

impl LostWorld {
    fn new(silent: [bool; 64]) -> Self {
        LostWorld {
            silent,
            replies: ArrayVec::new(),
            moment: 0,
            lost_at: [None; 32],
            dropped: 0,
            seen: NOTHING,
            is_left: true,
        }
    }

    /// Answers a message of the exchange, where it has an answer.
    fn answer_to(&mut self, message: &Octets) {
        let Some((flag, low)) = message.get(2).copied().zip(message.get(3).copied()) else {
            return;
        };
        let is_silent = self.silent.get(low as usize).copied().unwrap_or(false);
        let kind = match message.get(4) {
            Some(0x05) => 0x07,
            Some(0x45 | 0x4D) if !is_silent => 0x5A,
            _ => return,
        };
        let mut reply = Octets::new();
        let octets = [0x08, 0x02, flag | 0x80, low, kind];
        if reply.try_extend_from_slice(&octets).is_err() {
            return;
        }
        if !self.replies.is_full() {
            self.replies.push(reply);
        }
    }
}

impl World for LostWorld {
    ghost did = { λ s acts t. Unit {0} };

    fn begin(&mut self, second: u32) -> Begin {
        self.moment = second;
        if second > LAST {
            return Begin::Ended;
        }
        Begin::Joined
    }

    fn drop_peer(&mut self, _loss: Loss) {}

    fn log(&mut self, event: LiveEvent<'_>) -> Result<(), CannotLog> {
        match event {
            LiveEvent::Amended(Amendment::Delayed, _) => self.seen.delayed = true,
            LiveEvent::Amended(Amendment::Dropped, _) => {
                self.seen.dropped = true;
                self.dropped = self.dropped.saturating_add(1);
            }
            LiveEvent::Amended(Amendment::Out, _) => self.seen.left = true,
            _ => {}
        }
        Ok(())
    }

    fn sync(&mut self) -> Result<(), CannotLog> {
        Ok(())
    }

    fn write_turn(&mut self, sent: &[Octets], _moment: u32) -> Result<(), WriteFailed> {
        for message in sent {
            self.answer_to(message);
        }
        Ok(())
    }

    fn write_message(&mut self, message: &Octets) -> Result<(), WriteFailed> {
        self.answer_to(message);
        Ok(())
    }

    fn read(&mut self, room: u32) -> Result<Frame, LinkFault> {
        if room == 0 {
            return Ok(Frame::EndOfTurn(self.moment));
        }
        match self.replies.pop() {
            Some(reply) => Ok(Frame::Message(reply)),
            None => Ok(Frame::EndOfTurn(self.moment)),
        }
    }

    fn take_waiting(&mut self) -> Option<Octets> {
        None
    }

    fn end_day(&mut self) {}

    ghost did_nothing = { λ s. tt };

    ghost did_more = { λ s t u xs ys p q. tt };
}

impl Market for LostWorld {
    ghost dealt = { λ s deals t. Unit {0} };

    fn ask(&mut self, exchange: &Exchange) -> Option<Request> {
        for number in 1..32u8 {
            if let Some(channel) = Channel::new(number) {
                let lost_at = &mut self.lost_at[number as usize];
                if exchange.in_maintenance(channel) && lost_at.is_none() {
                    *lost_at = Some(exchange.moment());
                }
            }
        }
        None
    }

    fn answer(&mut self, _answers: &[Answer]) {}

    fn answer_change(&mut self, _answer: Result<(), NoChange>) {}

    fn lost(&mut self, _exchange: &Exchange) {}

    fn moved(&mut self, exchange: &Exchange, is_whole: bool) {
        self.is_left &= is_whole && !is_any_behind(exchange);
    }

    ghost dealt_by = { λ s t acts p. tt };

    ghost dealt_more = { λ s t u xs ys p q. tt };
}

/// Bookings right behind one another, on channels 1 to 3, or on some of these.
fn drawn_rows(generator: &mut Generator) -> ArrayVec<Row, ROWS> {
    let mut rows = ArrayVec::new();
    let mut starts = [u32::MAX; 3];
    for start in &mut starts {
        if generator.below(4) > 0 {
            *start = generator.below(6).saturating_add(1);
        }
    }
    for _row in 0..ROWS {
        let place = (generator.below(3) as usize).min(2);
        let start = starts[place];
        if start < 150 && !rows.is_full() {
            let end = start.saturating_add(generator.below(24).saturating_add(2));
            rows.push((start, end, place as u8 + 1, false));
            starts[place] = end.saturating_add(generator.below(3));
        }
    }
    rows
}

/// Whether a booking has one second alone, at whose begin the call before it on its channel ends: its channel is cleared in that second.
fn is_of_a_cleared_second(exchange: &Exchange, entry: &Entry) -> bool {
    let begin = entry.booking.start();
    let mut is_behind = false;
    for other in exchange.entries() {
        is_behind |= other.channel == entry.channel && other.booking.end() == begin;
    }
    is_behind && entry.booking.end() == begin.saturating_add(1)
}

/// Whether a booking may be missed: it was over by the second after its channel was lost, or that second was the last of it, and
/// another call's clearing took it.
fn may_be_missed(exchange: &Exchange, entry: &Entry, world: &LostWorld) -> bool {
    let lost_at = world.lost_at[entry.channel as usize & 31].unwrap_or(0);
    entry.booking.end() <= lost_at.saturating_add(1) || is_of_a_cleared_second(exchange, entry)
}

/// Whether what became of each booking is as it is to be: none is missed but those that may be, what was given up is refused, and
/// all others were carried to their end.
fn are_right(exchange: &Exchange, world: &mut LostWorld) -> bool {
    let mut refused = 0usize;
    for entry in exchange.entries() {
        match entry.standing {
            Standing::Refused => refused = refused.saturating_add(1),
            Standing::Missed => {
                world.seen.missed = true;
                if !may_be_missed(exchange, entry, world) {
                    return false;
                }
            }
            Standing::Carried { until, .. } => {
                if until != entry.booking.end() {
                    return false;
                }
            }
            _ => return false,
        }
    }
    refused == world.dropped
}

/// Whether a drawn day is as it is to be. None where it could not be opened.
fn is_right(alloc: Global, generator: &mut Generator, seen: &mut Seen) -> Option<bool> {
    let rows = drawn_rows(generator);
    let mut silent = [false; 64];
    for each in &mut silent {
        *each = generator.below(12) == 0;
    }
    let mut exchange = exchange_of(alloc, &rows)?;
    let channels = ChannelSet::from_numbers(&[1, 2, 3]).ok()?;
    let mut world = LostWorld::new(silent);
    run_market(alloc, &mut exchange, &mut world, channels, LAST).ok()?;
    let is_right = are_right(&exchange, &mut world);
    seen.delayed |= world.seen.delayed;
    seen.dropped |= world.seen.dropped;
    seen.left |= world.seen.left;
    seen.missed |= world.seen.missed;
    Some(is_right && world.is_left)
}

#[test]
fn drawn_days_lose_channels(rt: HostRuntime) -> Result<(), Fail> {
    let mut generator = Generator { state: 7 };
    let mut seen = NOTHING;
    for day in 0..DAYS / SHARE {
        let is_right = is_right(rt.alloc(), &mut generator, &mut seen);
        assert_eq!(rt; is_right, Some(true), "day {day}");
    }
    assert_eq!(rt; seen, ALL);
    Ok(())
}

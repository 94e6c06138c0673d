//! What is answered of a day that runs, each text whole.

use bx_base::{Booking, Bookings, ChannelSet};
use bx_book::BookFault;
use bx_calendar::{Clock, Day};
use bx_cases::messages::{
    CONNECT, FAR_DISCONNECT_16, FAR_RELEASE_COMPLETE, FAR_RELEASE_COMPLETE_17,
};
use bx_channels::Number;
use bx_day::Exchange;
use bx_market::Answer;
use bx_office_world::{
    Figures, NoAnswer, Opened, Terms, call_of, changed_text, free_text, metrics_text,
    outcomes_text, plan_text, quote_text, records_text, sold_text, wish_of,
};
use bx_planner::NoQuote;
use bx_sales::NoSale;
use bx_worked_days::{Row, TICK, exchange_of, goes_through};
use std::alloc::Global;

/// One is called at once, one is refused, and one is called later.
static ROWS: [Row; 3] = [(0, 60, 1, false), (30, 40, 0, false), (150, 160, 2, false)];

/// A day: its name, what it goes through and how many seconds more, and what is told of it then.
struct Case {
    name: &'static str,
    steps: &'static [&'static [u8]],
    seconds: u32,
    outcomes: &'static str,
    records: &'static str,
}

static CASES: [Case; 5] = [
    Case {
        name: "at its opening",
        steps: &[],
        seconds: 0,
        outcomes: "1 waiting\n2 refused\n3 waiting\nmaintenance none\n",
        records: "row,direction,number,channel,start,end,pay,outcome,from,until,seconds\n1,out,1234,1,0,60,5,waiting,,,\n2,out,1234,,30,40,5,refused,,,\n3,out,1234,2,150,160,5,waiting,,,\n",
    },
    Case {
        name: "a call is up",
        steps: &[TICK, CONNECT],
        seconds: 0,
        outcomes: "1 live\n2 refused\n3 waiting\nmaintenance none\n",
        records: "row,direction,number,channel,start,end,pay,outcome,from,until,seconds\n1,out,1234,1,0,60,5,live,1,,\n2,out,1234,,30,40,5,refused,,,\n3,out,1234,2,150,160,5,waiting,,,\n",
    },
    Case {
        name: "a call was not answered",
        steps: &[TICK, FAR_RELEASE_COMPLETE_17],
        seconds: 0,
        outcomes: "1 unanswered\n2 refused\n3 waiting\nmaintenance none\n",
        records: "row,direction,number,channel,start,end,pay,outcome,from,until,seconds\n1,out,1234,1,0,60,5,unanswered,,,\n2,out,1234,,30,40,5,refused,,,\n3,out,1234,2,150,160,5,waiting,,,\n",
    },
    Case {
        name: "a call was cleared by the far end",
        steps: &[TICK, CONNECT, TICK, FAR_DISCONNECT_16, FAR_RELEASE_COMPLETE],
        seconds: 0,
        outcomes: "1 carried 1 2\n2 refused\n3 waiting\nmaintenance none\n",
        records: "row,direction,number,channel,start,end,pay,outcome,from,until,seconds\n1,out,1234,1,0,60,5,carried,1,2,1\n2,out,1234,,30,40,5,refused,,,\n3,out,1234,2,150,160,5,waiting,,,\n",
    },
    Case {
        name: "a channel is in maintenance",
        steps: &[TICK, CONNECT],
        seconds: 97,
        outcomes: "1 carried 1 60\n2 refused\n3 waiting\nmaintenance 1\n",
        records: "row,direction,number,channel,start,end,pay,outcome,from,until,seconds\n1,out,1234,1,0,60,5,carried,1,60,59\n2,out,1234,,30,40,5,refused,,,\n3,out,1234,2,150,160,5,waiting,,,\n",
    },
];

/// The last plan of each of these days: what was promised is must, on its channel, and what was refused is not taken, though it has room now.
const PLAN: &str =
    "bx-plan 3\nchannels 1 2 3\nbookings 3\n0 60 5 1234 1 must out\n30 40 5 1234 - free out\n150 160 5 1234 2 must out\nprices 0\ntotal 10\nend\n";

/// The exchange of a case.
fn exchange_at(alloc: Global, steps: &[&[u8]], seconds: u32) -> Option<Exchange> {
    let mut exchange = exchange_of(alloc, &ROWS)?;
    goes_through(&mut exchange, steps);
    for _second in 0..seconds {
        let _sent = exchange.tick();
    }
    Some(exchange)
}

/// Whether the texts of the day are these.
fn are_told(alloc: Global, case: &Case) -> Option<bool> {
    let exchange = exchange_at(alloc, case.steps, case.seconds)?;
    let channels = ChannelSet::from_numbers(&[1, 2, 3]).ok()?;
    let outcomes = outcomes_text(alloc, &exchange, &[]).ok()?;
    let records = records_text(alloc, &exchange, None).ok()?;
    let plan = plan_text(alloc, &exchange, channels).ok()?;
    Some(
        outcomes.as_slice() == case.outcomes.as_bytes()
            && records.as_slice() == case.records.as_bytes()
            && plan.as_slice() == PLAN.as_bytes(),
    )
}

#[test]
fn days_are_told(rt: HostRuntime) {
    for case in &CASES {
        assert!(rt; are_told(rt.alloc(), case) == Some(true), "{}", case.name);
    }
}

/// The figures at the opening, before anything was counted.
const FIRST: &str = "# TYPE bx_moment_seconds gauge
# UNIT bx_moment_seconds seconds
# HELP bx_moment_seconds Seconds of the day so far.
bx_moment_seconds 0
# TYPE bx_bookings gauge
# HELP bx_bookings Bookings of the last plan, by what has become of them.
bx_bookings{outcome=\"refused\"} 1
bx_bookings{outcome=\"waiting\"} 2
bx_bookings{outcome=\"live\"} 0
bx_bookings{outcome=\"carried\"} 0
bx_bookings{outcome=\"unanswered\"} 0
bx_bookings{outcome=\"missed\"} 0
# TYPE bx_pay gauge
# HELP bx_pay What these bookings pay.
bx_pay{outcome=\"refused\"} 5
bx_pay{outcome=\"waiting\"} 10
bx_pay{outcome=\"live\"} 0
bx_pay{outcome=\"carried\"} 0
bx_pay{outcome=\"unanswered\"} 0
bx_pay{outcome=\"missed\"} 0
# TYPE bx_rows_left gauge
# HELP bx_rows_left Bookings that the last plan has room for.
bx_rows_left 15997
# TYPE bx_channels_in_maintenance gauge
# HELP bx_channels_in_maintenance Channels that have no call until the next day.
bx_channels_in_maintenance 0
# TYPE bx_seconds_without_link gauge
# HELP bx_seconds_without_link Seconds that began without a link.
bx_seconds_without_link 0
# TYPE bx_late_seconds gauge
# HELP bx_late_seconds Seconds that began more than a second late.
bx_late_seconds 0
# TYPE bx_clearings_received gauge
# HELP bx_clearings_received Messages of the far end that clear a call, by their cause (ITU-T Q.850).
# TYPE bx_answers gauge
# HELP bx_answers Requests that were answered of the day.
bx_answers 0
# TYPE bx_bookings_sold gauge
# HELP bx_bookings_sold Bookings that were sold.
bx_bookings_sold 0
# TYPE bx_bookings_dropped gauge
# HELP bx_bookings_dropped Bookings that were given up for want of a channel.
bx_bookings_dropped 0
# EOF
";

/// The figures of the day with a channel in maintenance, where much was counted.
const LAST: &str = "# TYPE bx_moment_seconds gauge
# UNIT bx_moment_seconds seconds
# HELP bx_moment_seconds Seconds of the day so far.
bx_moment_seconds 98
# TYPE bx_bookings gauge
# HELP bx_bookings Bookings of the last plan, by what has become of them.
bx_bookings{outcome=\"refused\"} 1
bx_bookings{outcome=\"waiting\"} 1
bx_bookings{outcome=\"live\"} 0
bx_bookings{outcome=\"carried\"} 1
bx_bookings{outcome=\"unanswered\"} 0
bx_bookings{outcome=\"missed\"} 0
# TYPE bx_pay gauge
# HELP bx_pay What these bookings pay.
bx_pay{outcome=\"refused\"} 5
bx_pay{outcome=\"waiting\"} 5
bx_pay{outcome=\"live\"} 0
bx_pay{outcome=\"carried\"} 5
bx_pay{outcome=\"unanswered\"} 0
bx_pay{outcome=\"missed\"} 0
# TYPE bx_rows_left gauge
# HELP bx_rows_left Bookings that the last plan has room for.
bx_rows_left 15997
# TYPE bx_channels_in_maintenance gauge
# HELP bx_channels_in_maintenance Channels that have no call until the next day.
bx_channels_in_maintenance 1
# TYPE bx_seconds_without_link gauge
# HELP bx_seconds_without_link Seconds that began without a link.
bx_seconds_without_link 12
# TYPE bx_late_seconds gauge
# HELP bx_late_seconds Seconds that began more than a second late.
bx_late_seconds 1
# TYPE bx_clearings_received gauge
# HELP bx_clearings_received Messages of the far end that clear a call, by their cause (ITU-T Q.850).
bx_clearings_received{cause=\"0\"} 18446744073709551615
bx_clearings_received{cause=\"16\"} 210
bx_clearings_received{cause=\"127\"} 1
# TYPE bx_answers gauge
# HELP bx_answers Requests that were answered of the day.
bx_answers 7
# TYPE bx_bookings_sold gauge
# HELP bx_bookings_sold Bookings that were sold.
bx_bookings_sold 2
# TYPE bx_bookings_dropped gauge
# HELP bx_bookings_dropped Bookings that were given up for want of a channel.
bx_bookings_dropped 3
# TYPE bx_sync_age_seconds gauge
# UNIT bx_sync_age_seconds seconds
# HELP bx_sync_age_seconds Seconds since the journal was brought to the disk last.
bx_sync_age_seconds 3
# EOF
";

/// Figures of which much was counted.
fn counted() -> Figures {
    let mut figures = Figures::new();
    figures.alone = 12;
    figures.late = 1;
    figures.answers = 7;
    figures.sold = 2;
    figures.dropped = 3;
    figures.since_sync = Some(3);
    figures.clearings[0] = u64::MAX;
    figures.clearings[16] = 210;
    figures.clearings[127] = 1;
    figures
}

#[test]
fn figures_are_told(rt: HostRuntime) {
    let alloc = rt.alloc();
    let first = exchange_at(alloc, &[], 0).and_then(|x| metrics_text(
        alloc,
        &x,
        &Figures::new(),
    ).ok());
    assert!(rt;
        first.is_some_and(|text| text.as_slice() == FIRST.as_bytes()),
        "first"
    );
    let last = exchange_at(alloc, &[TICK, CONNECT], 97).and_then(|x| metrics_text(
        alloc,
        &x,
        &counted(),
    ).ok());
    assert!(rt;
        last.is_some_and(|text| text.as_slice() == LAST.as_bytes()),
        "last"
    );
}

/// A question: its name, the query, the channels, and the answer.
type Question = (
    &'static str,
    &'static str,
    &'static [u8],
    Result<&'static str, NoAnswer>,
);

const FREE: &str = "its seconds cost 0\ntaken above 0\ninstead of none\nbesides none\n";

static QUESTIONS: [Question; 9] = [
    (
        "there is room",
        "start=2026-01-05T00:00:10Z&end=2026-01-05T00:00:20Z",
        &[1, 2, 3],
        Ok(FREE),
    ),
    (
        "as a form sends it",
        "end=2026-01-05T01%3A00%3A20%2B01%3A00&start=2026-01-05T01%3a00%3a10%2b01%3a00",
        &[1, 2, 3],
        Ok(FREE),
    ),
    (
        "the first of its fields counts",
        "start=2026-01-05T00:00:10Z&start=x&end=2026-01-05T00:00:20Z&end=y",
        &[1, 2, 3],
        Ok(FREE),
    ),
    (
        "the promised one has the channel",
        "start=2026-01-05T00:00:10Z&end=2026-01-05T00:00:20Z",
        &[1],
        Err(NoAnswer::Quote(NoQuote::NoChannel(10))),
    ),
    (
        "no end",
        "start=2026-01-05T00:00:10Z",
        &[1, 2, 3],
        Err(NoAnswer::NoTimes),
    ),
    ("nothing", "", &[1, 2, 3], Err(NoAnswer::NoTimes)),
    (
        "no time",
        "start=now&end=2026-01-05T00:00:20Z",
        &[1, 2, 3],
        Err(NoAnswer::Book(BookFault::NotATime(1))),
    ),
    (
        "another day",
        "start=2026-01-05T00:00:10Z&end=2026-01-06T00:00:20Z",
        &[1, 2, 3],
        Err(NoAnswer::Book(BookFault::OutsideDay(1))),
    ),
    (
        "turned",
        "start=2026-01-05T00:00:20Z&end=2026-01-05T00:00:20Z",
        &[1, 2, 3],
        Err(NoAnswer::Book(BookFault::EndNotAfterStart(1))),
    ),
];

/// A question at a rate of each started minute: its name, the query, the rate, and the answer.
type RatedQuestion = (&'static str, &'static str, u32, &'static str);

static RATED_QUESTIONS: [RatedQuestion; 5] = [
    (
        "one minute",
        "start=2026-01-05T00:00:10Z&end=2026-01-05T00:01:10Z",
        7,
        "its seconds cost 0\ntaken above 6\ninstead of none\nbesides none\n",
    ),
    (
        "a second more",
        "start=2026-01-05T00:00:10Z&end=2026-01-05T00:01:11Z",
        7,
        "its seconds cost 0\ntaken above 13\ninstead of none\nbesides none\n",
    ),
    (
        "one second",
        "start=2026-01-05T00:00:10Z&end=2026-01-05T00:00:11Z",
        1_000_000,
        "its seconds cost 0\ntaken above 999999\ninstead of none\nbesides none\n",
    ),
    (
        "the least rate of one minute",
        "start=2026-01-05T00:00:10Z&end=2026-01-05T00:01:10Z",
        1,
        FREE,
    ),
    (
        "the whole day",
        "start=2026-01-05T00:00:00Z&end=2026-01-06T00:00:00Z",
        1_000_000,
        "its seconds cost 0\ntaken above 1439999999\ninstead of none\nbesides none\n",
    ),
];

/// What is answered to a query on a day, at a rate.
fn quoted(
    alloc: Global,
    exchange: &Exchange,
    query: &str,
    numbers: &[u8],
    rate: u32,
) -> Option<Result<Vec<u8>, NoAnswer>> {
    let channels = ChannelSet::from_numbers(numbers).ok()?;
    let day = Day::new("2026-01-05", "UTC0").ok()?;
    let call = match call_of(alloc, query.as_bytes(), &day) {
        Ok(call) => call,
        Err(why) => return Some(Err(why)),
    };
    Some(quote_text(alloc, exchange, channels, rate, &call))
}

/// Whether a question has its answer on a day.
fn is_answered(alloc: Global, exchange: &Exchange, question: &Question) -> bool {
    match (
        quoted(alloc, exchange, question.1, question.2, 0),
        question.3,
    ) {
        (Some(Ok(text)), Ok(expected)) => text.as_slice() == expected.as_bytes(),
        (Some(Err(why)), Err(expected)) => why == expected,
        _ => false,
    }
}

/// The exchange at the opening of the day, or where channel 1 is lost, on which its first call was not cleared.
fn opened_or_lost(alloc: Global, is_lost: bool) -> Option<Exchange> {
    if is_lost {
        exchange_at(alloc, &[TICK, CONNECT], 97)
    } else {
        exchange_at(alloc, &[], 0)
    }
}

/// Whether a question has its answer at the opening of the day, or where a channel is lost.
fn is_answered_at(alloc: Global, is_lost: bool, question: &Question) -> bool {
    match opened_or_lost(alloc, is_lost) {
        Some(exchange) => is_answered(alloc, &exchange, question),
        None => false,
    }
}

#[test]
fn questions_are_answered(rt: HostRuntime) {
    for question in &QUESTIONS {
        assert!(rt;
            is_answered_at(rt.alloc(), false, question),
            "{}",
            question.0
        );
    }
}

/// Where channel 1 is in maintenance.
static LOST_QUESTIONS: [Question; 4] = [
    (
        "on the channel that is left",
        "start=2026-01-05T00:02:40Z&end=2026-01-05T00:02:50Z",
        &[1, 2],
        Ok(FREE),
    ),
    (
        "the promised one has the channel that is left",
        "start=2026-01-05T00:02:30Z&end=2026-01-05T00:02:40Z",
        &[1, 2],
        Err(NoAnswer::Quote(NoQuote::NoChannel(150))),
    ),
    (
        "on a third one",
        "start=2026-01-05T00:02:30Z&end=2026-01-05T00:02:40Z",
        &[1, 2, 3],
        Ok(FREE),
    ),
    (
        "none is left",
        "start=2026-01-05T00:02:40Z&end=2026-01-05T00:02:50Z",
        &[1],
        Err(NoAnswer::TooManyMust(150)),
    ),
];

#[test]
fn questions_are_answered_of_the_channels_that_are_left(rt: HostRuntime) {
    for question in &LOST_QUESTIONS {
        assert!(rt;
            is_answered_at(rt.alloc(), true, question),
            "{}",
            question.0
        );
    }
}

/// Whether a question at a rate has its answer.
fn is_rated(alloc: Global, question: &RatedQuestion) -> bool {
    let Some(exchange) = exchange_at(alloc, &[], 0) else {
        return false;
    };
    match quoted(alloc, &exchange, question.1, &[1, 2, 3], question.2) {
        Some(Ok(text)) => text.as_slice() == question.3.as_bytes(),
        _ => false,
    }
}

#[test]
fn quotes_know_the_rate(rt: HostRuntime) {
    for question in &RATED_QUESTIONS {
        assert!(rt; is_rated(rt.alloc(), question), "{}", question.0);
    }
}

/// A call that is wished for: its name, the query, the channels, whether there is a clock, and when it may start.
type Wished = (
    &'static str,
    &'static str,
    &'static [u8],
    bool,
    Result<&'static str, NoAnswer>,
);

static WISHES: [Wished; 18] = [
    (
        "beside what is promised",
        "length=10",
        &[1],
        false,
        Ok("from,until\n60,140\n160,600\n"),
    ),
    (
        "by a clock",
        "length=10",
        &[1],
        true,
        Ok(
            "from,until\n2026-01-05T00:01:00+00:00,2026-01-05T00:02:20+00:00\n2026-01-05T00:02:40+00:00,2026-01-05T00:10:00+00:00\n",
        ),
    ),
    (
        "as long as the time between",
        "length=90",
        &[1],
        false,
        Ok("from,until\n60,60\n160,600\n"),
    ),
    (
        "a second longer",
        "length=91",
        &[1],
        false,
        Ok("from,until\n160,600\n"),
    ),
    (
        "of one second",
        "length=1",
        &[1],
        false,
        Ok("from,until\n60,149\n160,600\n"),
    ),
    (
        "on another channel",
        "length=10",
        &[1, 2],
        false,
        Ok("from,until\n1,600\n"),
    ),
    (
        "within some time",
        "length=10&from=2026-01-05T00:01:10Z&to=2026-01-05T00:02:45Z",
        &[1],
        false,
        Ok("from,until\n70,140\n160,165\n"),
    ),
    (
        "before a channel is free",
        "length=10&to=2026-01-05T00:00:59Z",
        &[1],
        false,
        Ok("from,until\n"),
    ),
    (
        "after the last second to which the day is run",
        "to=2026-01-05T00:20:00Z&length=10&from=2026-01-05T00:09:59Z",
        &[1],
        false,
        Ok("from,until\n599,600\n"),
    ),
    (
        "up to the last moment of a booking",
        "length=199400",
        &[1],
        false,
        Ok("from,until\n160,600\n"),
    ),
    (
        "past the last moment of a booking",
        "length=199500",
        &[1],
        false,
        Ok("from,until\n160,500\n"),
    ),
    ("no channel", "length=1", &[], false, Ok("from,until\n")),
    ("no length", "", &[1], false, Err(NoAnswer::NoLength)),
    (
        "of no second",
        "length=0",
        &[1],
        false,
        Err(NoAnswer::NoLength),
    ),
    (
        "longer than a day",
        "length=200001",
        &[1],
        false,
        Err(NoAnswer::NoLength),
    ),
    (
        "a length that is no number",
        "length=1m",
        &[1],
        false,
        Err(NoAnswer::NoLength),
    ),
    (
        "from no time",
        "length=10&from=now",
        &[1],
        false,
        Err(NoAnswer::Book(BookFault::NotATime(1))),
    ),
    (
        "to another day",
        "length=10&to=2026-01-06T00:00:20Z",
        &[1],
        false,
        Err(NoAnswer::Book(BookFault::OutsideDay(1))),
    ),
];

/// What is answered to a query of free times of a day that is run to a second.
fn freed(
    alloc: Global,
    exchange: &Exchange,
    wished: &Wished,
    last: u32,
) -> Option<Result<Vec<u8>, NoAnswer>> {
    let clock = Clock::new("2026-01-05", "UTC0").ok()?;
    let opened = Opened {
        channels: ChannelSet::from_numbers(wished.2).ok()?,
        day: *clock.day(),
        last,
        rate: 0,
        clock: if wished.3 { Some(clock) } else { None },
    };
    let wish = match wish_of(alloc, wished.1.as_bytes(), &opened.day, last) {
        Ok(wish) => wish,
        Err(why) => return Some(Err(why)),
    };
    Some(free_text(alloc, &opened, exchange, wish))
}

/// Whether a wish has its answer on a day.
fn is_freed_on(alloc: Global, exchange: &Exchange, wished: &Wished) -> bool {
    match (freed(alloc, exchange, wished, 600), wished.4) {
        (Some(Ok(text)), Ok(expected)) => text.as_slice() == expected.as_bytes(),
        (Some(Err(why)), Err(expected)) => why == expected,
        _ => false,
    }
}

/// Whether a wish has its answer at the opening of the day, or where a channel is lost.
fn is_freed(alloc: Global, is_lost: bool, wished: &Wished) -> bool {
    match opened_or_lost(alloc, is_lost) {
        Some(exchange) => is_freed_on(alloc, &exchange, wished),
        None => false,
    }
}

#[test]
fn free_times_are_told(rt: HostRuntime) {
    for wished in &WISHES {
        assert!(rt; is_freed(rt.alloc(), false, wished), "{}", wished.0);
    }
}

/// Where channel 1 is in maintenance.
static LOST_WISHES: [Wished; 3] = [
    (
        "on the channel that is left",
        "length=10",
        &[1, 2],
        false,
        Ok("from,until\n99,140\n160,600\n"),
    ),
    (
        "on a third one",
        "length=10",
        &[1, 2, 3],
        false,
        Ok("from,until\n99,600\n"),
    ),
    ("none is left", "length=10", &[1], false, Ok("from,until\n")),
];

#[test]
fn free_times_are_those_of_the_channels_that_are_left(rt: HostRuntime) {
    for wished in &LOST_WISHES {
        assert!(rt; is_freed(rt.alloc(), true, wished), "{}", wished.0);
    }
}

/// What is told of a day on which a hundred and one calls have five seconds between them.
fn freed_between(alloc: Global) -> Option<Vec<u8>> {
    let mut rows = Vec::new(alloc);
    for row in 0..101u32 {
        rows.push((row * 10, row * 10 + 5, 1u8, false)).ok()?;
    }
    let exchange = exchange_of(alloc, &rows)?;
    let wished: Wished = ("", "length=5", &[1], false, Ok(""));
    freed(alloc, &exchange, &wished, 2000)?.ok()
}

#[test]
fn a_hundred_free_times_are_told(rt: HostRuntime) {
    let told = freed_between(rt.alloc());
    let are = told.is_some_and(|text| text.iter().filter(|octet| **octet == b'\n').count() == 101
        && text.starts_with(b"from,until\n5,5\n15,15\n")
        && text.ends_with(b"\n985,985\n995,995\n"));
    assert!(rt; are, "told");
}

/// A batch: its name, the last second to which the day is run, the rate of each started minute, how many rows the plan had, its bookings, which
/// pay 5 each, what became of those that were offered, and what the customer is told.
struct Batch {
    name: &'static str,
    last: u32,
    rate: u32,
    rows: u16,
    wanted: &'static [(u32, u32)],
    answers: &'static [Answer],
    told: &'static str,
}

static BATCHES: [Batch; 11] = [
    Batch {
        name: "none",
        last: 86438,
        rate: 0,
        rows: 3,
        wanted: &[],
        answers: &[],
        told: "row,answer,plan row,reason\n",
    },
    Batch {
        name: "one",
        last: 86438,
        rate: 0,
        rows: 0,
        wanted: &[(100, 160)],
        answers: &[Answer::Accepted],
        told: "row,answer,plan row,reason\n1,accepted,1,\n",
    },
    Batch {
        name: "the last row of a plan",
        last: 86438,
        rate: 0,
        rows: 15999,
        wanted: &[(100, 160), (100, 160)],
        answers: &[Answer::Accepted, Answer::Refused(NoSale::Full)],
        told: "row,answer,plan row,reason\n1,accepted,16000,\n2,refused,,Full\n",
    },
    Batch {
        name: "some",
        last: 86438,
        rate: 0,
        rows: 3,
        wanted: &[
            (1, 160),
            (100, 160),
            (100, 160),
            (100, 160),
            (170, 180),
            (190, 200),
        ],
        answers: &[
            Answer::Refused(NoSale::Late),
            Answer::Accepted,
            Answer::Refused(NoSale::NoChannel),
            Answer::Refused(NoSale::TookOver),
            Answer::Accepted,
            Answer::Refused(NoSale::Memory),
        ],
        told: "row,answer,plan row,reason\n1,refused,,Late\n2,accepted,4,\n3,refused,,NoChannel\n4,refused,,TookOver\n5,accepted,5,\n6,refused,,Memory\n",
    },
    Batch {
        name: "of one, two and three seconds",
        last: 86438,
        rate: 0,
        rows: 3,
        wanted: &[(100, 101), (110, 112), (120, 123), (130, 131)],
        answers: &[
            Answer::Accepted,
            Answer::Accepted,
            Answer::Accepted,
            Answer::Refused(NoSale::NoChannel),
        ],
        told: "row,answer,plan row,reason\n1,accepted,4,TooShort\n2,accepted,5,TooShort\n3,accepted,6,\n4,refused,,NoChannel\n",
    },
    Batch {
        name: "in the last second, and after it",
        last: 600,
        rate: 0,
        rows: 3,
        wanted: &[(601, 700), (600, 700), (602, 603), (599, 700)],
        answers: &[Answer::Accepted, Answer::Refused(NoSale::NoChannel)],
        told: "row,answer,plan row,reason\n1,refused,,AfterTheDay\n2,accepted,4,\n3,refused,,AfterTheDay\n4,refused,,NoChannel\n",
    },
    Batch {
        name: "none within the day",
        last: 600,
        rate: 0,
        rows: 3,
        wanted: &[(601, 700)],
        answers: &[],
        told: "row,answer,plan row,reason\n1,refused,,AfterTheDay\n",
    },
    Batch {
        name: "at the rate, below it and after the day",
        last: 600,
        rate: 2,
        rows: 3,
        wanted: &[
            (100, 220),
            (100, 221),
            (601, 700),
            (601, 900),
            (100, 160),
            (300, 301),
        ],
        answers: &[
            Answer::Accepted,
            Answer::Refused(NoSale::NoChannel),
            Answer::Accepted,
        ],
        told: "row,answer,plan row,reason\n1,accepted,4,\n2,refused,,BelowRate\n3,refused,,AfterTheDay\n4,refused,,AfterTheDay\n5,refused,,NoChannel\n6,accepted,5,TooShort\n",
    },
    Batch {
        name: "just the rate of one minute, and a second more",
        last: 86438,
        rate: 5,
        rows: 0,
        wanted: &[(100, 160), (100, 161)],
        answers: &[Answer::Accepted],
        told: "row,answer,plan row,reason\n1,accepted,1,\n2,refused,,BelowRate\n",
    },
    Batch {
        name: "none at the rate",
        last: 86438,
        rate: 1_000_000,
        rows: 0,
        wanted: &[(100, 101)],
        answers: &[],
        told: "row,answer,plan row,reason\n1,refused,,BelowRate\n",
    },
    Batch {
        name: "one without an answer",
        last: 86438,
        rate: 0,
        rows: 3,
        wanted: &[(100, 160), (170, 180)],
        answers: &[Answer::Accepted],
        told: "row,answer,plan row,reason\n1,accepted,4,\n2,refused,,Memory\n",
    },
];

/// The bookings with these starts and ends.
fn wanted_of(alloc: Global, seconds: &[(u32, u32)]) -> Option<Bookings> {
    let number = Number::new(b"1234")?;
    let mut wanted = Bookings::new(alloc);
    for (start, end) in seconds {
        wanted.push(Booking::new(*start, *end, 5, number)?).ok()?;
    }
    Some(wanted)
}

/// What a customer is told of a batch.
fn told_of(alloc: Global, batch: &Batch) -> Option<Vec<u8>> {
    let wanted = wanted_of(alloc, batch.wanted)?;
    let terms = Terms {
        last: batch.last,
        rate: batch.rate,
    };
    sold_text(alloc, terms, batch.rows, &wanted, batch.answers).ok()
}

/// Whether a customer is told this.
fn is_sold(alloc: Global, batch: &Batch) -> bool {
    match told_of(alloc, batch) {
        Some(text) => text.as_slice() == batch.told.as_bytes(),
        None => false,
    }
}

#[test]
fn batches_are_told(rt: HostRuntime) {
    for batch in &BATCHES {
        assert!(rt; is_sold(rt.alloc(), batch), "{}", batch.name);
    }
}

/// What is told of a change that was made: its name, whether the booking was given up, its row of the plan, and the text.
type Changed = (&'static str, bool, u16, &'static str);

static CHANGED: [Changed; 3] = [
    (
        "given up",
        true,
        1,
        "row,answer,plan row,reason\n1,cancelled,1,\n",
    ),
    (
        "changed",
        false,
        17,
        "row,answer,plan row,reason\n1,changed,17,\n",
    ),
    (
        "the last row",
        false,
        65535,
        "row,answer,plan row,reason\n1,changed,65535,\n",
    ),
];

#[test]
fn changes_are_told(rt: HostRuntime) {
    for changed in &CHANGED {
        let told = changed_text(rt.alloc(), changed.1, changed.2);
        assert!(rt;
            told.is_ok_and(|text| text.as_slice() == changed.3.as_bytes()),
            "{}",
            changed.0
        );
    }
}

//! Requests as texts, each with all of its fields.

use bx_request::{
    AuditRequest, Call, CaptureWords, DayChartRequest, DayHours, FarLineRequest, FarRequest,
    FileRequest, LinePorts, LiveRequest, Peer, Place, RecordsRequest, RecordsWords,
    RehearsalRequest, Request, Sight, SoldRequest, Terms,
};
use std::alloc::{AllocError, Global};

type Text = Result<String, AllocError>;

fn word(word: Option<&str>) -> &str {
    word.unwrap_or("none")
}

fn number(alloc: Global, number: Option<u32>) -> Text {
    match number {
        Some(number) => format!(in alloc; "{number}"),
        None => String::from_str(alloc, "none"),
    }
}

fn day(alloc: Global, day: Option<(&str, &str)>) -> Text {
    match day {
        Some((date, zone)) => format!(in alloc; "{date} {zone}"),
        None => String::from_str(alloc, "none"),
    }
}

fn terms(alloc: Global, terms: &Terms<'_>) -> Text {
    format!(in alloc; "{} {} {:?}", terms.date, terms.zone, terms.channels)
}

fn call(alloc: Global, call: Call<'_>) -> Text {
    let day = day(alloc, call.day)?;
    format!(in alloc;
        "from {} to {} inward {} on {day}",
        call.start, call.end, call.inward
    )
}

fn capture(alloc: Global, capture: Option<CaptureWords<'_>>) -> Text {
    let Some(capture) = capture else {
        return String::from_str(alloc, "capture none");
    };
    let day = day(alloc, capture.day)?;
    format!(in alloc; "capture {} on {day}", capture.file)
}

fn records(alloc: Global, records: Option<RecordsWords<'_>>) -> Text {
    let Some(records) = records else {
        return String::from_str(alloc, "records none");
    };
    let day = day(alloc, records.day)?;
    format!(in alloc; "records {} on {day}", records.file)
}

fn sight(alloc: Global, sight: Sight<'_>) -> Text {
    let capture = capture(alloc, sight.capture)?;
    format!(in alloc; "{capture} quiet {}", sight.is_quiet)
}

fn place(alloc: Global, place: Place<'_>) -> Text {
    match place {
        Place::Port(port) => format!(in alloc; "port {port}"),
        Place::Socket(path) => format!(in alloc; "socket {path}"),
    }
}

fn peer(alloc: Global, peer: Peer<'_>) -> Text {
    match peer {
        Peer::Script(script) => format!(in alloc; "the script {script}"),
        Peer::At(at) => place(alloc, at),
    }
}

fn line(alloc: Global, line: LinePorts) -> Text {
    format!(in alloc; "line {} to {}", line.here, line.there)
}

fn hours(alloc: Global, hours: DayHours<'_>) -> Text {
    format!(in alloc; "on {} {} pace {}", hours.date, hours.zone, hours.pace)
}

fn of_files(alloc: Global, request: &FileRequest<'_>) -> Text {
    match request {
        FileRequest::Plan {
            terms: given,
            bookings,
        } => {
            let given = terms(alloc, given)?;
            format!(in alloc; "plan {given} of {bookings}")
        }
        FileRequest::Check {
            terms: given,
            bookings,
            plan,
        } => {
            let given = terms(alloc, given)?;
            format!(in alloc; "check {given} of {bookings} against {plan}")
        }
        FileRequest::Amend {
            date,
            zone,
            plan,
            bookings,
        } => { format!(in alloc; "amend {date} {zone} of {plan} by {bookings}") }
        FileRequest::Capacity {
            date,
            zone,
            bookings,
        } => { format!(in alloc; "capacity {date} {zone} of {bookings}") }
        FileRequest::Explain { plan, row } => {
            let row = number(alloc, row.map(u32::from))?;
            format!(in alloc; "explain {plan} row {row}")
        }
        FileRequest::Quote { plan, call: wanted } => {
            let wanted = call(alloc, *wanted)?;
            format!(in alloc; "quote {plan} {wanted}")
        }
        FileRequest::Chart { plan, day: shown } => {
            let shown = day(alloc, *shown)?;
            format!(in alloc; "chart {plan} on {shown}")
        }
    }
}

fn of_rehearsal(alloc: Global, request: &RehearsalRequest<'_>) -> Text {
    let peer = peer(alloc, request.peer)?;
    let turns = number(alloc, request.turns)?;
    let records = records(alloc, request.records)?;
    let sight = sight(alloc, request.sight)?;
    let journal = word(request.journal);
    format!(in alloc;
        "rehearsal of {} towards {peer} journal {journal} turns {turns} {records} {sight}",
        request.plan
    )
}

fn of_far(alloc: Global, request: &FarRequest<'_>) -> Text {
    let place = place(alloc, request.place)?;
    let sight = sight(alloc, request.sight)?;
    format!(in alloc; "far {} towards {place} {sight}", request.script)
}

fn of_far_line(alloc: Global, request: &FarLineRequest<'_>) -> Text {
    let line = line(alloc, request.line)?;
    let hours = hours(alloc, request.hours)?;
    let turns = number(alloc, request.turns)?;
    let capture = word(request.capture);
    format!(in alloc;
        "far {} {line} {hours} turns {turns} capture {capture} quiet {}",
        request.script, request.is_quiet
    )
}

/// Where an office or a counter listens, where one is wanted.
fn door(alloc: Global, at: Option<Place<'_>>) -> Text {
    match at {
        Some(at) => place(alloc, at),
        None => String::from_str(alloc, "none"),
    }
}

fn of_live(alloc: Global, request: &LiveRequest<'_>) -> Text {
    let line = line(alloc, request.line)?;
    let hours = hours(alloc, request.hours)?;
    let journal = word(request.journal);
    let office = door(alloc, request.office)?;
    let origin = word(request.origin);
    let counter = door(alloc, request.counter)?;
    let counter_origin = word(request.counter_origin);
    let rate = number(alloc, request.rate)?;
    let turns = number(alloc, request.turns)?;
    format!(in alloc;
        "live {} {line} {hours} journal {journal} office {office} origin {origin} counter {counter} origin {counter_origin} rate {rate} turns {turns} quiet {}",
        request.plan, request.is_quiet
    )
}

fn of_audit(alloc: Global, request: &AuditRequest<'_>) -> Text {
    let capture = capture(alloc, request.capture)?;
    format!(in alloc; "audit {} by {} {capture}", request.plan, request.journal)
}

fn of_records(alloc: Global, request: &RecordsRequest<'_>) -> Text {
    let day = day(alloc, request.day)?;
    format!(in alloc;
        "records {} by {} on {day} quiet {}",
        request.plan, request.journal, request.is_quiet
    )
}

fn of_sold(alloc: Global, request: &SoldRequest<'_>) -> Text {
    format!(in alloc; "sold {} by {}", request.plan, request.journal)
}

fn of_day_chart(alloc: Global, request: &DayChartRequest<'_>) -> Text {
    let day = day(alloc, request.day)?;
    format!(in alloc; "chart {} by {} on {day}", request.plan, request.journal)
}

/// A request as a text, in which each field stands.
pub(crate) fn spelled(alloc: Global, request: &Request<'_>) -> Text {
    match request {
        Request::Files(request) => of_files(alloc, request),
        Request::Rehearsal(request) => of_rehearsal(alloc, request),
        Request::Far(request) => of_far(alloc, request),
        Request::FarLine(request) => of_far_line(alloc, request),
        Request::Live(request) => of_live(alloc, request),
        Request::Audit(request) => of_audit(alloc, request),
        Request::Records(request) => of_records(alloc, request),
        Request::Sold(request) => of_sold(alloc, request),
        Request::DayChart(request) => of_day_chart(alloc, request),
        Request::Decode { octets } => format!(in alloc; "decode {octets}"),
    }
}

//! The arguments that commands take.

use bx_events::LAST_MOMENT;
use clap::builder::ValueParser;
use clap::{Arg, ArgAction, value_parser};
use std::alloc::{AllocError, Global};

/// Of which day a date is.
#[derive(Clone, Copy)]
pub enum Day {
    /// That of the bookings.
    Bookings,
    /// That of a served day.
    Served,
    /// That of a plan, where the times of a call are told.
    Call,
    /// That of a plan that is drawn.
    Picture,
    /// That of a capture and of records.
    Seen,
    /// That of a capture.
    Captured,
    /// That of a far end.
    Far,
    /// That of a journal.
    Logged,
}

/// What a journal is for.
#[derive(Clone, Copy)]
pub enum Journal {
    /// To be read from a file.
    File,
    /// To be read from a file or from standard input.
    Read,
    /// To be begun.
    New,
    /// To be begun or gone on with.
    Kept,
    /// To be drawn.
    Drawn,
}

/// An argument that a command takes.
#[derive(Clone, Copy)]
pub enum Argument {
    Date(Day),
    Zone,
    DayZone,
    Channels,
    Bookings,
    Plan,
    Journal(Journal),
    Script,
    Turns,
    FarTurns,
    Port,
    Socket,
    ServedLine,
    FarLine,
    Live,
    Pace,
    FarPace,
    Office,
    OfficePort,
    Origin,
    Counter,
    CounterPort,
    CounterOrigin,
    Rate,
    Records,
    Capture,
    Octets,
    Row,
    Start,
    End,
    Inward,
    Quiet,
    NoTotals,
}

/// How an argument is written.
#[derive(Clone, Copy)]
enum Form {
    /// A word at its place, which has to be there.
    Place,
    /// A number at its place, which may be left out.
    Number,
    /// An option that has to be there.
    Needed,
    /// An option that may be left out.
    Optional,
    /// An option without a value.
    Flag,
    /// An option for a number of seconds of a day, from 1 on.
    Seconds,
    /// An option for how many seconds of a day go by in one of the clock, 1 to 1,000.
    Pace,
    /// An option for what a started minute has to pay, 1 to 1,000,000.
    Rate,
    /// An option for a port.
    Port,
}

const ZONE: &str = "The zone of its midnights, as a POSIX rule like CET-1CEST,M3.5.0,M10.5.0/3";

const DAY_ZONE: &str =
    "The zone of its midnights, as a POSIX rule like CET-1CEST,M3.5.0,M10.5.0/3 [default: UTC0]";

const CHANNELS: &str = "The B channels in service: numbers and ranges separated by commas, or none";

const BOOKINGS: &str =
    "The file of bookings, or - for standard input: CSV under the header start,end,number,pay[,must[,direction]]";

const PLAN: &str = "The file of the plan's text, or - for standard input";

const SCRIPT: &str =
    "The file of the far end's script, or - for standard input: CSV under the header number,policy,seconds[,channel]";

const TURNS: &str =
    "Seconds of the day to run, 1 to 300000 [default: until 38 s after the end of the last accepted booking; of a live day until that end]";

const FAR_TURNS: &str =
    "Seconds of the day to run, 1 to 300000 [default: until 38 s after the end of the day]";

const PORT: &str = "The TCP port on 127.0.0.1, 1 to 65535";

const SOCKET: &str = "The path of a Unix socket, in place of a port";

const SERVED_LINE: &str =
    "The two UDP ports on 127.0.0.1 between which the data link of a live day goes: that of this end, and that of the other";

const FAR_LINE: &str =
    "The two UDP ports on 127.0.0.1 of a data link, this end's and the exchange's: run the day by the clock, from the midnight of --date";

const LIVE: &str =
    "Run the day by the clock, over a data link: its first second is the midnight of --date";

const PACE: &str = "Seconds of a live day in one of the clock, 1 to 1000 [default: 1]";

const FAR_PACE: &str = "Seconds of the day in one of the clock, 1 to 1000 [default: 1]";

const OFFICE: &str =
    "The path of a Unix socket for a booking office over HTTP: quotes, sales and the state of a live day while it runs";

const OFFICE_PORT: &str = "The TCP port on 127.0.0.1 for it, in place of a socket";

const ORIGIN: &str =
    "The origin of a proxy in front of it, as https://office.example: who asks by its host is answered too, and its page";

const COUNTER: &str =
    "The path of a Unix socket for its counter, at which customers see quotes, free times and a form, and book, and nothing else";

const COUNTER_PORT: &str = "The TCP port on 127.0.0.1 for the counter, in place of a socket";

const COUNTER_ORIGIN: &str = "The origin of a proxy in front of the counter";

const RATE: &str =
    "The least pay of each started minute of a call that it sells, 1 to 1000000 [default: none]";

const RECORDS: &str =
    "When the day has ended write its records into this file, as CSV for bills and spreadsheets";

const CAPTURE: &str =
    "Write each message that goes over the link into this capture file, which Wireshark reads";

const OCTETS: &str = "The octets of the message, in hexadecimal";

const ROW: &str = "The row of the plan, counted from 1; without it all refused rows";

const START: &str =
    "The first second of the call: a second of the day, or with --date a time as 2026-01-05T08:00:00Z";

const END: &str = "The first second after the call, in the same form";

const INWARD: &str = "The far end makes the call";

const QUIET: &str =
    "Show no progress, which else stands on standard error where that is a terminal";

const NO_TOTALS: &str = "Print no totals, which else stand on standard error";

/// The name of an argument. It and the texts below live as long as the caller likes: of a `'static` one that a function
/// answers the borrow checker makes no `Arg<'a>`.
fn name_of<'a>(argument: Argument) -> &'a str {
    match argument {
        Argument::Date(_) => "date",
        Argument::Zone | Argument::DayZone => "zone",
        Argument::Channels => "channels",
        Argument::Bookings => "bookings",
        Argument::Plan => "plan",
        Argument::Journal(_) => "journal",
        Argument::Script => "script",
        Argument::Turns | Argument::FarTurns => "turns",
        Argument::Port => "port",
        Argument::Socket => "socket",
        Argument::ServedLine | Argument::FarLine => "line",
        Argument::Live => "live",
        Argument::Pace | Argument::FarPace => "pace",
        Argument::Office => "office",
        Argument::OfficePort => "office-port",
        Argument::Origin => "origin",
        Argument::Counter => "counter",
        Argument::CounterPort => "counter-port",
        Argument::CounterOrigin => "counter-origin",
        Argument::Rate => "rate",
        Argument::Records => "records",
        Argument::Capture => "capture",
        Argument::Octets => "octets",
        Argument::Row => "row",
        Argument::Start => "start",
        Argument::End => "end",
        Argument::Inward => "inward",
        Argument::Quiet | Argument::NoTotals => "quiet",
    }
}

/// What stands for an argument's value in the help.
fn value_of<'a>(argument: Argument) -> &'a str {
    match argument {
        Argument::Date(_) => "DATE",
        Argument::Zone | Argument::DayZone => "RULE",
        Argument::Channels => "LIST",
        Argument::Bookings => "BOOKINGS",
        Argument::Plan => "PLAN",
        Argument::Journal(Journal::File | Journal::Read) => "JOURNAL",
        Argument::Journal(_) | Argument::Records | Argument::Capture => "FILE",
        Argument::Script => "SCRIPT",
        Argument::Turns
        | Argument::FarTurns
        | Argument::Pace
        | Argument::FarPace
        | Argument::Rate => "N",
        Argument::Port | Argument::OfficePort | Argument::CounterPort => "P",
        Argument::Socket | Argument::Office | Argument::Counter => "PATH",
        Argument::Origin | Argument::CounterOrigin => "ORIGIN",
        Argument::ServedLine | Argument::FarLine => "HERE:THERE",
        Argument::Octets => "HEX",
        Argument::Row => "ROW",
        Argument::Start => "START",
        Argument::End => "END",
        Argument::Live | Argument::Inward | Argument::Quiet | Argument::NoTotals => "",
    }
}

/// The form of an argument.
fn form_of(argument: Argument) -> Form {
    match argument {
        Argument::Bookings
        | Argument::Plan
        | Argument::Journal(Journal::File | Journal::Read)
        | Argument::Script
        | Argument::Octets
        | Argument::Start
        | Argument::End => Form::Place,
        Argument::Row => Form::Number,
        Argument::Date(Day::Bookings) => Form::Needed,
        Argument::Live | Argument::Inward | Argument::Quiet | Argument::NoTotals => Form::Flag,
        Argument::Turns | Argument::FarTurns => Form::Seconds,
        Argument::Pace | Argument::FarPace => Form::Pace,
        Argument::Rate => Form::Rate,
        Argument::Port | Argument::OfficePort | Argument::CounterPort => Form::Port,
        _ => Form::Optional,
    }
}

/// The help of a date.
fn date_help<'a>(day: Day) -> &'a str {
    match day {
        Day::Bookings => "The day of the bookings, as YYYY-MM-DD",
        Day::Served =>
            "The day, as YYYY-MM-DD: that of a live day, or of the times of a capture and of records, which else are seconds of the day",
        Day::Call => "The day of the plan, as YYYY-MM-DD, where START and END are times",
        Day::Picture => "The day of the plan, as YYYY-MM-DD: the picture is as long as it",
        Day::Seen =>
            "The day, as YYYY-MM-DD: the times of the capture and of the records are its own, and not seconds of the day",
        Day::Captured =>
            "The day, as YYYY-MM-DD: the time stamps of the capture are its instants, and not seconds of the day",
        Day::Far =>
            "The day, as YYYY-MM-DD: that of a day by the clock, or of the time stamps of a capture, which else are seconds of the day",
        Day::Logged =>
            "The day, as YYYY-MM-DD: moments are its local times, and not seconds of the day",
    }
}

/// The help of a journal.
fn journal_help<'a>(journal: Journal) -> &'a str {
    match journal {
        Journal::File => "The file of the journal of the plan's day",
        Journal::Read => "The file of the journal of the plan's day, or - for standard input",
        Journal::New =>
            "Log each event in this file, which has to be new or empty, before anything is sent for it",
        Journal::Kept =>
            "Log each event in this file before anything is sent for it: a new or empty one; a live day goes on from what stands there",
        Journal::Drawn =>
            "The file of the journal of the plan's day, or - for standard input: draw the day as it went",
    }
}

/// The help of an argument.
fn help_of<'a>(argument: Argument) -> &'a str {
    match argument {
        Argument::Date(day) => date_help(day),
        Argument::Journal(journal) => journal_help(journal),
        Argument::Zone => ZONE,
        Argument::DayZone => DAY_ZONE,
        Argument::Channels => CHANNELS,
        Argument::Bookings => BOOKINGS,
        Argument::Plan => PLAN,
        Argument::Script => SCRIPT,
        Argument::Turns => TURNS,
        Argument::FarTurns => FAR_TURNS,
        Argument::Port => PORT,
        Argument::Socket => SOCKET,
        Argument::ServedLine => SERVED_LINE,
        Argument::FarLine => FAR_LINE,
        Argument::Live => LIVE,
        Argument::Pace => PACE,
        Argument::FarPace => FAR_PACE,
        Argument::Office => OFFICE,
        Argument::OfficePort => OFFICE_PORT,
        Argument::Origin => ORIGIN,
        Argument::Counter => COUNTER,
        Argument::CounterPort => COUNTER_PORT,
        Argument::CounterOrigin => COUNTER_ORIGIN,
        Argument::Rate => RATE,
        Argument::Records => RECORDS,
        Argument::Capture => CAPTURE,
        Argument::Octets => OCTETS,
        Argument::Row => ROW,
        Argument::Start => START,
        Argument::End => END,
        Argument::Inward => INWARD,
        Argument::Quiet => QUIET,
        Argument::NoTotals => NO_TOTALS,
    }
}

/// The arguments beside which alone an argument stands.
fn needs_of(argument: Argument) -> &'static [&'static str] {
    match argument {
        Argument::DayZone => &["date"],
        Argument::Date(Day::Captured) => &["capture"],
        Argument::ServedLine => &["live", "date"],
        Argument::FarLine => &["date"],
        Argument::Live | Argument::FarPace | Argument::FarTurns => &["line"],
        Argument::Pace => &["live"],
        Argument::Office
        | Argument::OfficePort
        | Argument::Origin
        | Argument::Counter
        | Argument::CounterPort
        | Argument::CounterOrigin
        | Argument::Rate => &["live", "journal"],
        _ => &[],
    }
}

/// The arguments in place of which an argument stands.
fn conflicts_of(argument: Argument) -> &'static [&'static str] {
    match argument {
        Argument::Socket => &["port"],
        Argument::ServedLine
        | Argument::FarLine
        | Argument::Live
        | Argument::FarPace
        | Argument::FarTurns => &["port", "socket"],
        Argument::OfficePort => &["office"],
        Argument::CounterPort => &["counter"],
        _ => &[],
    }
}

/// The arguments of which one has to be there where an argument is not.
fn stand_ins_of(argument: Argument) -> &'static [&'static str] {
    match argument {
        Argument::Port => &["socket", "line"],
        _ => &[],
    }
}

/// What stands for the value of an argument that is not there.
fn defaults_of(argument: Argument) -> &'static [&'static str] {
    match argument {
        Argument::Zone => &["UTC0"],
        Argument::Channels => &["1-15,17-31"],
        _ => &[],
    }
}

/// What a value of this form has to be.
fn parser_of(form: Form) -> ValueParser<'static> {
    match form {
        Form::Flag => ValueParser::Bool,
        Form::Number => value_parser!(u16).into(),
        Form::Port => value_parser!(u16).range(1..).into(),
        Form::Seconds => value_parser!(u32).range(1..=i64::from(LAST_MOMENT)).into(),
        Form::Pace => value_parser!(u32).range(1..=1_000).into(),
        Form::Rate => value_parser!(u32).range(1..=1_000_000).into(),
        _ => ValueParser::String,
    }
}

/// What a use of one of this form does.
fn action_of(form: Form) -> ArgAction {
    match form {
        Form::Flag => ArgAction::SetTrue,
        _ => ArgAction::Set,
    }
}

/// The argument as an option, where it is one.
fn named<'a>(arg: Arg<'a>, argument: Argument) -> Arg<'a> {
    match form_of(argument) {
        Form::Place | Form::Number => arg,
        _ => arg.long(name_of(argument)),
    }
}

/// The argument with what others ask of it.
fn related<'a>(arg: Arg<'a>, argument: Argument) -> Result<Arg<'a>, AllocError> {
    arg.requires_all(needs_of(argument))?
        .conflicts_with_all(conflicts_of(argument))?
        .required_unless_present_any(stand_ins_of(argument))
}

/// The argument as `clap` knows it.
pub(crate) fn arg_of<'a>(alloc: Global, argument: Argument) -> Result<Arg<'a>, AllocError> {
    let form = form_of(argument);
    let arg = Arg::new(alloc, name_of(argument))
        .help(help_of(argument))
        .value_name(value_of(argument))
        .required(matches!(form, Form::Place | Form::Needed))
        .action(action_of(form))
        .value_parser(parser_of(form))
        .default_values(defaults_of(argument));
    related(named(arg, argument), argument)
}

//! What a command line asks for.

ghost use Rattle.std.specs.Prelude.{◌≡◌, ℕ, Option, [], Err, IfErr, true, codes, unwrap_or, MatchResult};
ghost use Rattle.clap.specs.Words.{found_of};
ghost use Rattle.bx_words.specs.Inside.{IsNoHelp, command_word};
ghost use Rattle.bx_words.specs.Asked.{AreWordsRead, AskForHelp, IsCommandOf, is_help_option};
ghost use Rattle.bx_words.specs.Filled.{AreHoursGiven, AreRecordsGiven, AreTermsGiven, IsAskedBy, IsCallGiven, IsCaptureGiven, IsDayGiven};
ghost use Rattle.bx_words.specs.Filled.{IsLineText, IsDoorGiven, IsNumberGiven, IsOriginGiven, IsPeerGiven, IsPlaceGiven, IsRehearsalFilled};
ghost use Rattle.bx_words.specs.Filled.{IsSightGiven, word_given_or};

use crate::channel_list::channel_numbers;
use crate::command_line::{Name, name_of_word, program_of_words};
use crate::faults::FAULTS;
use crate::line_ports::ports_in;
use crate::origins::origin_in;
use bx_request::{
    AuditRequest, Call, CaptureWords, DayChartRequest, DayHours, FarLineRequest, FarRequest,
    FileRequest, LinePorts, LiveRequest, Peer, Place, RecordsRequest, RecordsWords,
    RehearsalRequest, Request, Sight, SoldRequest, Terms,
};
use clap::error::ErrorKind;
use clap::{ArgMatches, Error};
use std::alloc::{AllocError, AllocFailed, Global};

/// Why the words are no command.
#[derive(Debug, Drop)]
pub enum Refusal {
    /// Memory ran out.
    Memory,
    /// Help, or the version, was asked for: this is the text.
    Help(String),
    /// The words are wrong: this is what to say.
    Wrong(String),
}

impl From<AllocError> for Refusal {
    ghost use Rattle.bx_words.specs.declared.reading.Refusal.TheVariants.{Memory};

    ghost from_gives = { λ _ refusal. refusal ≡ Memory };

    fn from(_e: AllocError) -> Refusal {
        Refusal::Memory
    }
}

impl<T: Drop> From<AllocFailed<T>> for Refusal {
    ghost use Rattle.bx_words.specs.declared.reading.Refusal.TheVariants.{Memory};

    ghost from_gives = { λ _ refusal. refusal ≡ Memory };

    fn from(_e: AllocFailed<T>) -> Refusal {
        Refusal::Memory
    }
}

/// What is wrong with the words.
fn told(alloc: Global, error: &Error) -> Refusal
    ensures { IsNoHelp result }
{
    if error.kind() == ErrorKind::OutOfMemory {
        return Refusal::Memory;
    }
    match error.to_string(alloc) {
        Ok(text) => Refusal::Wrong(text),
        Err(_) => Refusal::Memory,
    }
}

/// Wrong words, in the form of `clap`'s own refusals.
fn wrong(alloc: Global, message: &str) -> Refusal
    ensures { IsNoHelp result }
{
    let Ok(mut command) = program_of_words(alloc) else {
        return Refusal::Memory;
    };
    match command.error(ErrorKind::ValueValidation, message) {
        Ok(error) => told(alloc, &error),
        Err(_) => Refusal::Memory,
    }
}

/// The word of an argument that the command requires or has a default for.
fn word<'a>(matches: &ArgMatches<'a>, name: &str) -> &'a str
    ensures { result.now ≡ word_given_or [] (found_of matches.now) name.now }
{
    matches.get_str(name).unwrap_or("")
}

/// The port, which the command requires.
fn port_of(matches: &ArgMatches<'_>) -> u16
    ensures { (number : Option ℕ) × IsNumberGiven 16 (found_of matches.now) (codes "port") number × (result ≡ unwrap_or number 0) }
{
    matches.get_one::<u16>("port").unwrap_or(0)
}

/// The day and the channels that these words name.
fn terms_of<'a>(alloc: Global, matches: &ArgMatches<'a>) -> Result<Terms<'a>, Refusal>
    ensures { MatchResult result (AreTermsGiven (found_of matches.now)) IsNoHelp }
{
    let list = word(matches, "channels");
    match channel_numbers(alloc, list)? {
        Some(channels) => Ok(Terms {
            date: word(matches, "date"),
            zone: word(matches, "zone"),
            channels,
        }),
        None => {
            let message = format!(in alloc;
                "invalid value '{list}' for '--channels <LIST>': not `none`, and no list of numbers and ranges of one or two digits"
            )?;
            Err(wrong(alloc, &message))
        }
    }
}

/// The date and the zone that these words name, where they name a date.
fn day_of<'a>(matches: &ArgMatches<'a>) -> Option<(&'a str, &'a str)>
    ensures { IsDayGiven (found_of matches.now) result }
{
    let zone = matches.get_str("zone").unwrap_or("UTC0");
    match matches.get_str("date") {
        Some(date) => Some((date, zone)),
        None => None,
    }
}

/// The capture that these words want.
fn capture_of<'a>(matches: &ArgMatches<'a>) -> Option<CaptureWords<'a>>
    ensures { IsCaptureGiven (found_of matches.now) result }
{
    let day = day_of(matches);
    match matches.get_str("capture") {
        Some(file) => Some(CaptureWords { file, day }),
        None => None,
    }
}

/// The records that these words want at the end of a day.
fn records_of<'a>(matches: &ArgMatches<'a>) -> Option<RecordsWords<'a>>
    ensures { AreRecordsGiven (found_of matches.now) result }
{
    let day = day_of(matches);
    match matches.get_str("records") {
        Some(file) => Some(RecordsWords { file, day }),
        None => None,
    }
}

/// What these words want to see of a day.
fn sight_of<'a>(matches: &ArgMatches<'a>) -> Sight<'a>
    ensures { IsSightGiven (found_of matches.now) result }
{
    Sight {
        capture: capture_of(matches),
        is_quiet: matches.get_flag("quiet"),
    }
}

/// The call that these words name.
fn call_of<'a>(matches: &ArgMatches<'a>) -> Call<'a>
    ensures { IsCallGiven (found_of matches.now) result }
{
    Call {
        start: word(matches, "start"),
        end: word(matches, "end"),
        inward: matches.get_flag("inward"),
        day: day_of(matches),
    }
}

/// The plan that these words want.
fn plan_request<'a>(alloc: Global, matches: &ArgMatches<'a>) -> Result<Request<'a>, Refusal>
    ensures { MatchResult result (IsAskedBy (codes "plan") (found_of matches.now)) IsNoHelp }
{
    let terms = terms_of(alloc, matches)?;
    let bookings = word(matches, "bookings");
    Ok(Request::Files(FileRequest::Plan { terms, bookings }))
}

/// The check of a plan that these words want.
fn check_request<'a>(alloc: Global, matches: &ArgMatches<'a>) -> Result<Request<'a>, Refusal>
    ensures { MatchResult result (IsAskedBy (codes "check") (found_of matches.now)) IsNoHelp }
{
    let terms = terms_of(alloc, matches)?;
    Ok(Request::Files(FileRequest::Check {
        terms,
        bookings: word(matches, "bookings"),
        plan: word(matches, "plan"),
    }))
}

/// The plan for more bookings that these words want.
fn amend_request<'a>(matches: &ArgMatches<'a>) -> Request<'a>
    ensures { IsAskedBy (codes "amend") (found_of matches.now) result }
{
    Request::Files(FileRequest::Amend {
        date: word(matches, "date"),
        zone: word(matches, "zone"),
        plan: word(matches, "plan"),
        bookings: word(matches, "bookings"),
    })
}

/// What other numbers of channels earn, which these words want.
fn capacity_request<'a>(matches: &ArgMatches<'a>) -> Request<'a>
    ensures { IsAskedBy (codes "capacity") (found_of matches.now) result }
{
    Request::Files(FileRequest::Capacity {
        date: word(matches, "date"),
        zone: word(matches, "zone"),
        bookings: word(matches, "bookings"),
    })
}

/// What these words want explained.
fn explain_request<'a>(matches: &ArgMatches<'a>) -> Request<'a>
    ensures { IsAskedBy (codes "explain") (found_of matches.now) result }
{
    Request::Files(FileRequest::Explain {
        plan: word(matches, "plan"),
        row: matches.get_one::<u16>("row"),
    })
}

/// The quote that these words want.
fn quote_request<'a>(matches: &ArgMatches<'a>) -> Request<'a>
    ensures { IsAskedBy (codes "quote") (found_of matches.now) result }
{
    Request::Files(FileRequest::Quote {
        plan: word(matches, "plan"),
        call: call_of(matches),
    })
}

/// The picture that these words want: of a day by its journal, where they name one, and else of a plan.
fn chart_request<'a>(matches: &ArgMatches<'a>) -> Request<'a>
    ensures { IsAskedBy (codes "chart") (found_of matches.now) result }
{
    let plan = word(matches, "plan");
    let day = day_of(matches);
    match matches.get_str("journal") {
        Some(journal) => Request::DayChart(DayChartRequest { plan, journal, day }),
        None => Request::Files(FileRequest::Chart { plan, day }),
    }
}

/// The port or the socket, of which the command requires one.
fn place_of<'a>(alloc: Global, matches: &ArgMatches<'a>) -> Result<Place<'a>, Refusal>
    ensures { MatchResult result (IsPlaceGiven (found_of matches.now)) IsNoHelp }
{
    match matches.get_str("socket") {
        Some("") => Err(wrong(
            alloc,
            "invalid value '' for '--socket <PATH>': no path is empty",
        )),
        Some(path) => Ok(Place::Socket(path)),
        None => Ok(Place::Port(port_of(matches))),
    }
}

/// The rehearsal towards this peer that these words want.
fn rehearsal_of<'a>(matches: &ArgMatches<'a>, peer: Peer<'a>) -> RehearsalRequest<'a>
    ensures peer { result.peer ≡ peer.entry }
    ensures filled { IsPeerGiven (found_of matches.now) peer.entry → IsRehearsalFilled (found_of matches.now) result }
{
    RehearsalRequest {
        plan: word(matches, "plan"),
        peer,
        journal: matches.get_str("journal"),
        turns: matches.get_one::<u32>("turns"),
        records: records_of(matches),
        sight: sight_of(matches),
    }
}

/// When the day by the clock is that these words want.
fn hours_of<'a>(matches: &ArgMatches<'a>) -> DayHours<'a>
    ensures { AreHoursGiven (found_of matches.now) result }
{
    DayHours {
        date: word(matches, "date"),
        zone: matches.get_str("zone").unwrap_or("UTC0"),
        pace: matches.get_one::<u32>("pace").unwrap_or(1),
    }
}

/// The two ports of the line that these words name.
fn line_of(alloc: Global, text: &str) -> Result<LinePorts, Refusal>
    ensures { MatchResult result (IsLineText text.now) IsNoHelp }
{
    match ports_in(text) {
        Some(line) => Ok(line),
        None => {
            let message = format!(in alloc;
                "invalid value '{text}' for '--line <HERE:THERE>': not two ports from 1 to 65535 that differ"
            )?;
            Err(wrong(alloc, &message))
        }
    }
}

/// Where an office or its counter is to listen that these words want, by the names of its two options, if they want one.
fn door_of<'a>(
    alloc: Global,
    matches: &ArgMatches<'a>,
    socket: &str,
    port: &str,
) -> Result<Option<Place<'a>>, Refusal>
    ensures { MatchResult result (IsDoorGiven (found_of matches.now) socket.now port.now) IsNoHelp }
{
    if let Some(port) = matches.get_one::<u16>(port) {
        return Ok(Some(Place::Port(port)));
    }
    match matches.get_str(socket) {
        Some("") => {
            let message = format!(in alloc;
                "invalid value '' for '--{socket} <PATH>': no path is empty"
            )?;
            Err(wrong(alloc, &message))
        }
        Some(path) => Ok(Some(Place::Socket(path))),
        None => Ok(None),
    }
}

/// The origin that these words name by this option, of a proxy in front of an office or its counter.
fn origin_of<'a>(
    alloc: Global,
    matches: &ArgMatches<'a>,
    option: &str,
) -> Result<Option<&'a str>, Refusal>
    ensures { MatchResult result (IsOriginGiven (found_of matches.now) option.now) IsNoHelp }
{
    let Some(text) = matches.get_str(option) else {
        return Ok(None);
    };
    match origin_in(text) {
        Some(origin) => Ok(Some(origin)),
        None => {
            let message = format!(in alloc;
                "invalid value '{text}' for '--{option} <ORIGIN>': not http:// or https://, a host, and a port where it has one"
            )?;
            Err(wrong(alloc, &message))
        }
    }
}

/// The refusal of an option that stands only beside one of two others, with which a door is opened.
fn lone(alloc: Global, option: &str, door: &str) -> Result<Refusal, Refusal>
    ensures { MatchResult result IsNoHelp IsNoHelp }
{
    let message = format!(in alloc;
        "'--{option}' stands only beside '--{door} <PATH>' or '--{door}-port <P>'"
    )?;
    Ok(wrong(alloc, &message))
}

/// Refuses what stands only beside an office, or only beside its counter, where there is none.
fn check_doors(
    alloc: Global,
    matches: &ArgMatches<'_>,
    has_office: bool,
    has_counter: bool,
) -> Result<(), Refusal>
    ensures { IfErr result IsNoHelp }
{
    if !has_office && matches.get_str("origin").is_some() {
        return Err(lone(alloc, "origin <ORIGIN>", "office")?);
    }
    if !has_office && matches.get_one::<u32>("rate").is_some() {
        return Err(lone(alloc, "rate <N>", "office")?);
    }
    if !has_office && matches.get_str("counter").is_some() {
        return Err(lone(alloc, "counter <PATH>", "office")?);
    }
    if !has_office && has_counter {
        return Err(lone(alloc, "counter-port <P>", "office")?);
    }
    if !has_counter && matches.get_str("counter-origin").is_some() {
        return Err(lone(alloc, "counter-origin <ORIGIN>", "counter")?);
    }
    Ok(())
}

/// The day that these words want to be run by the clock.
fn live_request<'a>(alloc: Global, matches: &ArgMatches<'a>) -> Result<Request<'a>, Refusal>
    ensures { MatchResult result (IsAskedBy (codes "serve") (found_of matches.now)) IsNoHelp }
{
    if matches.get_str("capture").is_some() || matches.get_str("records").is_some() {
        return Err(wrong(
            alloc,
            "'--capture <FILE>' and '--records <FILE>' do not stand beside '--live': `bx audit --capture` and `bx records` make both by the journal, at any time",
        ));
    }
    let line = line_of(alloc, word(matches, "line"))?;
    let office = door_of(alloc, matches, "office", "office-port")?;
    let origin = origin_of(alloc, matches, "origin")?;
    let counter = door_of(alloc, matches, "counter", "counter-port")?;
    let counter_origin = origin_of(alloc, matches, "counter-origin")?;
    check_doors(alloc, matches, office.is_some(), counter.is_some())?;
    Ok(Request::Live(LiveRequest {
        plan: word(matches, "plan"),
        line,
        hours: hours_of(matches),
        journal: matches.get_str("journal"),
        office,
        origin,
        counter,
        counter_origin,
        rate: matches.get_one::<u32>("rate"),
        turns: matches.get_one::<u32>("turns"),
        is_quiet: matches.get_flag("quiet"),
    }))
}

/// Whether a day is named, and nothing that needs it.
fn is_date_alone(matches: &ArgMatches<'_>) -> bool {
    matches.get_str("date").is_some()
        && matches.get_str("capture").is_none()
        && matches.get_str("records").is_none()
}

/// What these words want of a day of both ends.
fn day_request<'a>(alloc: Global, matches: &ArgMatches<'a>) -> Result<Request<'a>, Refusal>
    ensures { MatchResult result (IsAskedBy (codes "day") (found_of matches.now)) IsNoHelp }
{
    if is_date_alone(matches) {
        return Err(wrong(
            alloc,
            "'--date <DATE>' stands only beside '--capture <FILE>' or '--records <FILE>'",
        ));
    }
    let peer = Peer::Script(word(matches, "script"));
    Ok(Request::Rehearsal(rehearsal_of(matches, peer)))
}

/// What these words want of an exchange that serves.
fn serve_request<'a>(alloc: Global, matches: &ArgMatches<'a>) -> Result<Request<'a>, Refusal>
    ensures { MatchResult result (IsAskedBy (codes "serve") (found_of matches.now)) IsNoHelp }
{
    if matches.get_flag("live") {
        return live_request(alloc, matches);
    }
    if is_date_alone(matches) {
        return Err(wrong(
            alloc,
            "'--date <DATE>' stands only beside '--live', '--capture <FILE>' or '--records <FILE>'",
        ));
    }
    let peer = Peer::At(place_of(alloc, matches)?);
    Ok(Request::Rehearsal(rehearsal_of(matches, peer)))
}

/// What these words want of a far end by the clock, over this line.
fn far_line_request<'a>(
    alloc: Global,
    matches: &ArgMatches<'a>,
    line: &str,
) -> Result<Request<'a>, Refusal>
    ensures { line.now ≡ word_given_or [] (found_of matches.now) (codes "line") → MatchResult result (IsAskedBy (codes "far") (found_of matches.now)) IsNoHelp }
{
    let line = line_of(alloc, line)?;
    Ok(Request::FarLine(FarLineRequest {
        script: word(matches, "script"),
        line,
        hours: hours_of(matches),
        turns: matches.get_one::<u32>("turns"),
        capture: matches.get_str("capture"),
        is_quiet: matches.get_flag("quiet"),
    }))
}

/// What these words want of a far end.
fn far_request<'a>(alloc: Global, matches: &ArgMatches<'a>) -> Result<Request<'a>, Refusal>
    ensures { MatchResult result (IsAskedBy (codes "far") (found_of matches.now)) IsNoHelp }
{
    if let Some(line) = matches.get_str("line") {
        return far_line_request(alloc, matches, line);
    }
    if matches.get_str("date").is_some() && matches.get_str("capture").is_none() {
        return Err(wrong(
            alloc,
            "'--date <DATE>' stands only beside '--line <HERE:THERE>' or '--capture <FILE>'",
        ));
    }
    let place = place_of(alloc, matches)?;
    Ok(Request::Far(FarRequest {
        script: word(matches, "script"),
        place,
        sight: sight_of(matches),
    }))
}

/// The day that these words want to be told by its journal.
fn audit_request<'a>(matches: &ArgMatches<'a>) -> Request<'a>
    ensures { IsAskedBy (codes "audit") (found_of matches.now) result }
{
    Request::Audit(AuditRequest {
        plan: word(matches, "plan"),
        journal: word(matches, "journal"),
        capture: capture_of(matches),
    })
}

/// The records that these words want of a day by its journal.
fn records_request<'a>(matches: &ArgMatches<'a>) -> Request<'a>
    ensures { IsAskedBy (codes "records") (found_of matches.now) result }
{
    Request::Records(RecordsRequest {
        plan: word(matches, "plan"),
        journal: word(matches, "journal"),
        day: day_of(matches),
        is_quiet: matches.get_flag("quiet"),
    })
}

/// The last plan that these words want of a day by its journal.
fn sold_request<'a>(matches: &ArgMatches<'a>) -> Request<'a>
    ensures { IsAskedBy (codes "sold") (found_of matches.now) result }
{
    Request::Sold(SoldRequest {
        plan: word(matches, "plan"),
        journal: word(matches, "journal"),
    })
}

/// The message that these words want decoded.
fn decode_request<'a>(matches: &ArgMatches<'a>) -> Request<'a>
    ensures { IsAskedBy (codes "decode") (found_of matches.now) result }
{
    Request::Decode {
        octets: word(matches, "octets"),
    }
}

/// The command that has this name and these words.
fn request_of<'a>(
    alloc: Global,
    name: Name,
    matches: &ArgMatches<'a>,
) -> Result<Request<'a>, Refusal>
    ensures { MatchResult result (IsAskedBy (command_word name) (found_of matches.now)) IsNoHelp }
{
    match name {
        Name::Plan => plan_request(alloc, matches),
        Name::Check => check_request(alloc, matches),
        Name::Amend => Ok(amend_request(matches)),
        Name::Capacity => Ok(capacity_request(matches)),
        Name::Explain => Ok(explain_request(matches)),
        Name::Quote => Ok(quote_request(matches)),
        Name::Chart => Ok(chart_request(matches)),
        Name::Day => day_request(alloc, matches),
        Name::Serve => serve_request(alloc, matches),
        Name::Far => far_request(alloc, matches),
        Name::Audit => Ok(audit_request(matches)),
        Name::Records => Ok(records_request(matches)),
        Name::Sold => Ok(sold_request(matches)),
        Name::Decode => Ok(decode_request(matches)),
    }
}

/// The command that the first of the words names, with what was found in the others.
fn found_request<'a>(
    alloc: Global,
    words: &[&'a str],
    matches: &ArgMatches<'a>,
) -> Result<Request<'a>, Refusal>
    ensures { MatchResult result (IsCommandOf words.now) IsNoHelp }
{
    if let Some(word) = words.first()
        && let Some(name) = name_of_word(word)
        && let Some((_, found)) = matches.subcommand()
    {
        return request_of(alloc, name, found);
    }
    Err(Refusal::Wrong(String::new(alloc)))
}

/// Whether a word is an option that asks for help, or for the version. One of a letter may stand before others.
fn is_plea(word: &str) -> bool
    ensures { result ≡ is_help_option word.now }
{
    word == "--help"
        || word == "--version"
        || word.as_bytes().starts_with(b"-h")
        || word.as_bytes().starts_with(b"-V")
}

/// Whether words ask for help or for the version.
fn ask_for_help(words: &[&str]) -> bool
    ensures { result ≡ true → AskForHelp words.now }
{
    if let Some(first) = words.first()
        && *first == "help"
    {
        return true;
    }
    for word in words {
        if is_plea(word) {
            return true;
        }
    }
    false
}

/// Help that was asked for, or what is wrong with the words.
fn refusal_of(alloc: Global, words: &[&str], error: &Error) -> Refusal
    ensures { AreWordsRead words.now (Err result) }
{
    if error.use_stderr() || !ask_for_help(words) {
        return told(alloc, error);
    }
    match error.to_string(alloc) {
        Ok(text) => Refusal::Help(text),
        Err(_) => Refusal::Memory,
    }
}

/// The list of faults.
fn faults(alloc: Global) -> Refusal {
    match String::from_str(alloc, FAULTS) {
        Ok(text) => Refusal::Help(text),
        Err(_) => Refusal::Memory,
    }
}

/// Whether standard input is named more than once: it can be read once.
fn name_it_twice(words: &[&str]) -> bool {
    words.iter().filter(|word| **word == "-").count() > 1
}

/// The command of these words, which stand after the program's name. `help faults` is no command: it asks for the list
/// of faults. `Wrong` where the words are no command, `Help` where help or the version was asked for, `Memory` where memory ran
/// out.
pub fn read_words<'a>(alloc: Global, words: &'a [&'a str]) -> Result<Request<'a>, Refusal>
    ensures { AreWordsRead words.now result }
{
    if let ["help", "faults"] = words {
        return Err(faults(alloc));
    }
    if name_it_twice(words) {
        return Err(wrong(
            alloc,
            "'-' stands for standard input, and can be given once",
        ));
    }
    match program_of_words(alloc)?.try_get_matches_from(words) {
        Ok(matches) => found_request(alloc, words, &matches),
        Err(error) => Err(refusal_of(alloc, words, &error)),
    }
}

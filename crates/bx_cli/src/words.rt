//! The command line.

ghost use Rattle.std.specs.Prelude.{◌≡◌, ◌≢◌, ◌≤◌, ◌↔◌, ◌⊎◌, ℕ, [], Some, true, Result, IsOk, IsErr, OnOk, OnErr, IfErr, if◌then◌else◌};
ghost use Rattle.std.specs.Io.KnownBytes.{Appends};
ghost use Rattle.bx_devices.specs.Devices.{reading_of, writing_of};
ghost use Rattle.bx_devices.specs.Octets.{AppendsPrefix};
ghost use Rattle.bx_devices.specs.Watching.{device_of, is_faulted};
ghost use Rattle.bx_check_commands.specs.Proved.{IsProvedText, proved_line};
ghost use Rattle.bx_check_commands.specs.Refusals.{IsRefusal};
ghost use Rattle.bx_check_commands.specs.declared.fault.CommandFault.{CommandFault};
ghost use Rattle.bx_cli.specs.Statuses.{IsAnswerDone, IsAnswerLost, IsAnswerRefused, IsAnswerWrong, IsRefusedForGood, IsRequestDone, IsRequestRefused, is_live_day};
ghost use Rattle.bx_journal_files.specs.Lasting.{does_last};
ghost use Rattle.bx_request.specs.declared.request.Request.{Request};
ghost use Rattle.bx_words.specs.declared.reading.Refusal.{Refusal};

use crate::reading::ReadsWords;
use bx_audit::{audit_files, chart_day_files, record_files, sold_files};
use bx_check_commands::{CommandFault, FilesAndInput, check_self, decode};
use bx_devices::{Watched, write_octets};
use bx_far_commands::{far_by_line, far_on_files};
use bx_journal_files::{FileStats, Host, LiveFault, Locks};
use bx_live_commands::live_on_files;
use bx_plan_commands::run_on_files;
use bx_rehearsal_commands::rehearse_on_files;
use bx_request::{FileKind, FileUse, Locates, Request, SameFile, met_file, named_files};
use bx_words::{Refusal, explain_fault};
use std::alloc::Global;
use std::fmt::Display;
use std::fs::Files;
use std::io::{Read, Write};
use std::net::{Net, TcpListener, TcpStream};
use std::rt::Clock;

/// The files that a command uses, and whether what is refused is told to a person too.
#[derive(Clone, Copy)]
struct Asked<'a> {
    files: [Option<FileUse<'a>>; 5],
    is_terminal: bool,
}

/// Does what the words after the program's name ask for, and answers the status: 0 done, 1 refused, 2 wrong words, 3 a live day that is
/// refused by what a start again cannot mend. Without words it is `check_self`, whose refusal is printed after `bx: ` as one line on standard
/// error. A failing standard error changes no status. A command of which a file would be written that it names twice is refused by `SameFile`
/// before anything is opened. While a day runs its moment is shown on standard error, where that is a terminal.
pub fn main_words<
    H: Files
        + Locks
        + Locates
        + ReadsWords
        + FileStats
        + AllocGlobal
        + Clock
        + Eprint
        + Net<Listener = TcpListener, Stream = TcpStream>,
    R: Read,
    W: Write,
    E: Write,
>(
    rt: &H,
    words: &[&str],
    input: &mut Watched<R>,
    output: &mut Watched<W>,
    errors: &mut Watched<E>,
    is_terminal: bool,
) -> u8
    // Without words, 0 says that what was read is the text of a plan that is proved with some total, and that just
    // the line of that total was written.
    ensures done { words.now ≡ [] → result ≡ 0 → (total : ℕ)
        × IsProvedText (R.remaining (device_of input.old)) total
        × Appends (W.contents (device_of output.old)) (W.contents (device_of output.new)) (proved_line total) }
    // Else it was refused.
    ensures refused { words.now ≡ [] → result ≢ 0 → (result ≡ 1)
        × (fault : CommandFault) × IsRefusal (reading_of R.remaining input.old input.new) (writing_of W.contents output.old output.new) fault }
    ensures status { result ≤ 3 }
    // With words, 0 says that what they ask for is done: a command, whose files are apart by what the system told before one of them was
    // opened, or just the text of the help was written.
    ensures words { words.now ≢ [] → result ≡ 0 → (answer : Result Request Refusal) × H.reads words.now answer
        × IsAnswerDone H (H.tells rt.now) (R.remaining (device_of input.old)) answer H.File.contents W.contents output.old output.new }
    // And 1 says that the command that they ask for is refused, or that two of its files are one and nothing was done, or that the help was
    // not written whole, or that memory ran out before anything was done. Of a live day it is told where a start again may mend it.
    ensures not_done { words.now ≢ [] → result ≡ 1 → (answer : Result Request Refusal) × H.reads words.now answer
        × IsAnswerRefused H (H.tells rt.now) (R.remaining (device_of input.old)) answer H.File.contents W.contents output.old output.new }
    // And 2 says that the words are wrong, and nothing was done.
    ensures wrong { words.now ≢ [] → result ≡ 2 → (answer : Result Request Refusal) × H.reads words.now answer
        × IsAnswerWrong answer output.old output.new }
    // And 3 says the same as 1 of a live day, where a start again cannot mend it.
    ensures for_good { words.now ≢ [] → result ≡ 3 → (answer : Result Request Refusal) × H.reads words.now answer
        × IsAnswerLost H (H.tells rt.now) answer H.File.contents W.contents output.old output.new }
{
    if words.is_empty() {
        let alloc = rt.alloc();
        return match check_self(alloc, input, output) {
            Ok(_) => 0,
            Err(fault) => refused(alloc, &fault, plan_read(is_terminal), errors),
        };
    }
    run_words(rt, words, input, output, errors, is_terminal)
}

/// Does what words ask for, and answers the status.
fn run_words<'a, H: Host + Locates + ReadsWords, R: Read, W: Write, E: Write>(
    rt: &'a H,
    words: &'a [&'a str],
    input: &mut Watched<R>,
    output: &mut Watched<W>,
    errors: &mut Watched<E>,
    is_terminal: bool,
) -> u8
    ensures status { result ≤ 3 }
    ensures done { result ≡ 0 → (answer : Result Request Refusal) × H.reads words.now answer
        × IsAnswerDone H (H.tells rt.now) (R.remaining (device_of input.old)) answer H.File.contents W.contents output.old output.new }
    ensures not_done { result ≡ 1 → (answer : Result Request Refusal) × H.reads words.now answer
        × IsAnswerRefused H (H.tells rt.now) (R.remaining (device_of input.old)) answer H.File.contents W.contents output.old output.new }
    ensures wrong { result ≡ 2 → (answer : Result Request Refusal) × H.reads words.now answer × IsAnswerWrong answer output.old output.new }
    ensures for_good { result ≡ 3 → (answer : Result Request Refusal) × H.reads words.now answer
        × IsAnswerLost H (H.tells rt.now) answer H.File.contents W.contents output.old output.new }
{
    let alloc = rt.alloc();
    let unread = nothing_read(is_terminal);
    match rt.read_words(words) {
        Ok(request) => match met_file(rt, &request) {
            None => run(rt, request, input, output, errors, is_terminal),
            Some(name) => files_met(alloc, name, &request, unread, errors),
        },
        Err(Refusal::Help(text)) => status_of(alloc, show(&text, output), unread, errors),
        Err(Refusal::Wrong(text)) => {
            let _ = write_octets(errors, text.as_bytes());
            2
        }
        Err(Refusal::Memory) => refused(alloc, &CommandFault::Memory, unread, errors),
    }
}

/// Does one command, and answers its status.
fn run<'a, H: Host, R: Read, W: Write, E: Write>(
    rt: &'a H,
    request: Request<'a>,
    input: &mut Watched<R>,
    output: &mut Watched<W>,
    errors: &mut Watched<E>,
    is_terminal: bool,
) -> u8
    ensures status { (result ≤ 1) ⊎ (result ≡ 3) }
    ensures done { result ≡ 0 → IsRequestDone H (R.remaining (device_of input.old)) request.entry H.File.contents W.contents output.old output.new }
    ensures refused { result ≡ 1 → IsRequestRefused H (R.remaining (device_of input.old)) request.entry H.File.contents W.contents output.old output.new }
    ensures for_good { result ≡ 3 → IsRefusedForGood H request.entry H.File.contents W.contents output.old output.new }
{
    let alloc = rt.alloc();
    let asked = Asked {
        files: named_files(&request),
        is_terminal,
    };
    let mut inputs = FilesAndInput::new(rt, input);
    match request {
        Request::Files(request) => {
            let done = run_on_files(alloc, &mut inputs, &request, output, errors);
            status_of(alloc, done, asked, errors)
        }
        Request::Rehearsal(request) => {
            let done = rehearse_on_files(rt, &mut inputs, request, output, is_terminal);
            status_of(alloc, done, asked, errors)
        }
        Request::Far(request) => {
            let done = far_on_files(rt, &mut inputs, request, output, is_terminal);
            status_of(alloc, done, asked, errors)
        }
        Request::FarLine(request) => {
            let done = far_by_line(rt, &mut inputs, request, output, is_terminal);
            status_of(alloc, done, asked, errors)
        }
        Request::Live(request) => {
            let done = live_on_files(rt, &mut inputs, request, output, is_terminal);
            live_status(alloc, done, asked, errors)
        }
        Request::Audit(request) => {
            let done = audit_files(rt, &mut inputs, request, output);
            status_of(alloc, done, asked, errors)
        }
        Request::Records(request) => {
            let done = record_files(alloc, &mut inputs, request, output, errors);
            status_of(alloc, done, asked, errors)
        }
        Request::Sold(request) => {
            let done = sold_files(alloc, &mut inputs, request, output);
            status_of(alloc, done, asked, errors)
        }
        Request::DayChart(request) => {
            let done = chart_day_files(alloc, &mut inputs, request, output);
            status_of(alloc, done, asked, errors)
        }
        Request::Decode { octets } => {
            let done = decode(alloc, octets, output);
            status_of(alloc, done, asked, errors)
        }
    }
}

/// Writes a text that was asked for.
fn show<'a, W: Write>(text: &str, output: &mut Watched<W>) -> Result<(), CommandFault<'a>>
    ensures shown { OnOk result (Appends (W.contents (device_of output.old)) (W.contents (device_of output.new)) text.now) }
    ensures cut { OnErr result (AppendsPrefix (W.contents (device_of output.old)) (W.contents (device_of output.new)) text.now) }
    ensures failed { OnErr result (is_faulted output.new ≡ true) }
{
    match write_octets(output, text.as_bytes()) {
        Ok(()) => Ok(()),
        Err(_) => Err(CommandFault::CannotWrite),
    }
}

/// What is told of a plan that is read from standard input.
fn plan_read(is_terminal: bool) -> Asked<'static> {
    let plan = FileUse {
        name: "-",
        kind: FileKind::Plan,
        is_written: false,
    };
    Asked {
        files: [Some(plan), None, None, None, None],
        is_terminal,
    }
}

/// What is told where no file was read.
fn nothing_read(is_terminal: bool) -> Asked<'static> {
    Asked {
        files: [None, None, None, None, None],
        is_terminal,
    }
}

/// The status of what was done, or of its refusal.
fn status_of<F: Display + Copy, E: Write>(
    alloc: Global,
    done: Result<(), F>,
    asked: Asked<'_>,
    errors: &mut Watched<E>,
) -> u8
    ensures done { (result ≡ 0) ↔ IsOk done }
    ensures refused { IsErr done → result ≡ 1 }
{
    match done {
        Ok(()) => 0,
        Err(fault) => refused(alloc, &fault, asked, errors),
    }
}

/// The same of a live day: 3 where a start again cannot mend what refused it.
fn live_status<E: Write>(
    alloc: Global,
    done: Result<(), LiveFault<'_>>,
    asked: Asked<'_>,
    errors: &mut Watched<E>,
) -> u8
    ensures done { (result ≡ 0) ↔ IsOk done.entry }
    ensures refused { IfErr done.entry (λ fault. result ≡ (if does_last fault then 3 else 1)) }
{
    let Err(fault) = done else {
        return 0;
    };
    let status = refused(alloc, &fault, asked, errors);
    if fault.does_last() { 3 } else { status }
}

/// The status where the file of this name meets another one of the command's.
fn files_met<E: Write>(
    alloc: Global,
    name: &str,
    request: &Request<'_>,
    asked: Asked<'_>,
    errors: &mut Watched<E>,
) -> u8
    ensures { result ≡ (if is_live_day request.now then 3 else 1) }
{
    let status = refused(alloc, &SameFile(name), asked, errors);
    match request {
        Request::Live(_) => 3,
        _ => status,
    }
}

/// The status of a refusal, which is printed as one line; on a terminal a second one says what it means.
fn refused<F: Display, E: Write>(
    alloc: Global,
    fault: &F,
    asked: Asked<'_>,
    errors: &mut Watched<E>,
) -> u8
    ensures { result ≡ 1 }
{
    let _ = writeln!(errors, "bx: {fault}");
    if asked.is_terminal
        && let Ok(text) = format!(in alloc; "{fault}")
    {
        let _ = explain_fault(&text, &asked.files, errors);
    }
    1
}

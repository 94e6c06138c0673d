//! The files that a command uses.

ghost use Rattle.std.specs.Prelude.{◌≡◌, ◌∷◌, [], None};
ghost use Rattle.bx_request.specs.Uses.{capture_use, files_of, peer_use, read_use, records_use, uses_of, written_use};

use crate::request::{CaptureWords, FileRequest, Peer, RecordsWords, Request};

/// What a file of a command has.
#[derive(Clone, Copy)]
pub enum FileKind {
    Bookings,
    Plan,
    Script,
    Journal,
    Records,
    Capture,
}

/// A file that a command reads or writes, by its name.
#[derive(Clone, Copy)]
pub struct FileUse<'a> {
    pub name: &'a str,
    pub kind: FileKind,
    pub is_written: bool,
}

/// One that is read.
fn read<'a>(kind: FileKind, name: &'a str) -> Option<FileUse<'a>>
    ensures { result ≡ read_use kind name.entry }
{
    Some(FileUse {
        name,
        kind,
        is_written: false,
    })
}

/// One that is written, where one is named.
fn written<'a>(kind: FileKind, name: Option<&'a str>) -> Option<FileUse<'a>>
    ensures { result ≡ written_use kind name.entry }
{
    match name {
        Some(name) => Some(FileUse {
            name,
            kind,
            is_written: true,
        }),
        None => None,
    }
}

/// That of a capture, where one is to be kept.
fn captured<'a>(capture: Option<CaptureWords<'a>>) -> Option<FileUse<'a>>
    ensures { result ≡ capture_use capture.entry }
{
    match capture {
        Some(CaptureWords { file, .. }) => written(FileKind::Capture, Some(file)),
        None => None,
    }
}

/// That of the records of a day, where they are to be written.
fn recorded<'a>(records: Option<RecordsWords<'a>>) -> Option<FileUse<'a>>
    ensures { result ≡ records_use records.entry }
{
    match records {
        Some(RecordsWords { file, .. }) => written(FileKind::Records, Some(file)),
        None => None,
    }
}

/// The script of a far end of the same process.
fn scripted<'a>(peer: Peer<'a>) -> Option<FileUse<'a>>
    ensures { result ≡ peer_use peer.entry }
{
    match peer {
        Peer::Script(name) => read(FileKind::Script, name),
        Peer::At(_) => None,
    }
}

/// Where a command uses one file.
fn one<'a>(first: Option<FileUse<'a>>) -> [Option<FileUse<'a>>; 5]
    ensures { result ≡ first.entry ∷ None ∷ None ∷ None ∷ None ∷ [] }
{
    [first, None, None, None, None]
}

/// Where it uses two.
fn two<'a>(first: Option<FileUse<'a>>, second: Option<FileUse<'a>>) -> [Option<FileUse<'a>>; 5]
    ensures { result ≡ first.entry ∷ second.entry ∷ None ∷ None ∷ None ∷ [] }
{
    [first, second, None, None, None]
}

/// Where it tells of a day by its journal.
fn told<'a>(plan: &'a str, journal: &'a str) -> [Option<FileUse<'a>>; 5]
    ensures { result ≡ read_use FileKind.Plan plan.entry ∷ read_use FileKind.Journal journal.entry ∷ None ∷ None ∷ None ∷ [] }
{
    two(read(FileKind::Plan, plan), read(FileKind::Journal, journal))
}

/// The files of a command on bookings and plans.
fn on_files<'a>(request: &FileRequest<'a>) -> [Option<FileUse<'a>>; 5]
    ensures { result ≡ files_of request.now }
{
    match request {
        FileRequest::Plan { bookings, .. } => one(read(FileKind::Bookings, bookings)),
        FileRequest::Check { bookings, plan, .. } => {
            two(
                read(FileKind::Bookings, bookings),
                read(FileKind::Plan, plan),
            )
        }
        FileRequest::Amend { plan, bookings, .. } => {
            two(
                read(FileKind::Bookings, bookings),
                read(FileKind::Plan, plan),
            )
        }
        FileRequest::Capacity { bookings, .. } => one(read(FileKind::Bookings, bookings)),
        FileRequest::Explain { plan, .. } => one(read(FileKind::Plan, plan)),
        FileRequest::Quote { plan, .. } => one(read(FileKind::Plan, plan)),
        FileRequest::Chart { plan, .. } => one(read(FileKind::Plan, plan)),
    }
}

/// The files that the words of a command name, those that it reads before those that it writes.
pub fn named_files<'a>(request: &Request<'a>) -> [Option<FileUse<'a>>; 5]
    ensures { result ≡ uses_of request.now }
{
    match request {
        Request::Files(request) => on_files(request),
        Request::Rehearsal(request) => [
            read(FileKind::Plan, request.plan),
            scripted(request.peer),
            written(FileKind::Journal, request.journal),
            recorded(request.records),
            captured(request.sight.capture),
        ],
        Request::Far(request) => {
            two(
                read(FileKind::Script, request.script),
                captured(request.sight.capture),
            )
        }
        Request::FarLine(request) => two(
            read(FileKind::Script, request.script),
            written(FileKind::Capture, request.capture),
        ),
        Request::Live(request) => two(
            read(FileKind::Plan, request.plan),
            written(FileKind::Journal, request.journal),
        ),
        Request::Audit(request) => [
            read(FileKind::Plan, request.plan),
            read(FileKind::Journal, request.journal),
            captured(request.capture),
            None,
            None,
        ],
        Request::Records(request) => told(request.plan, request.journal),
        Request::Sold(request) => told(request.plan, request.journal),
        Request::DayChart(request) => told(request.plan, request.journal),
        Request::Decode { octets: _ } => [None, None, None, None, None],
    }
}

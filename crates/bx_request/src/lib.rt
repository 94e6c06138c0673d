//! What a command line can ask for, and the files that it names.
#![tactic(auto)]

mod locations;
mod meetings;
mod request;
mod uses;

pub use locations::{Locates, Location};
pub use meetings::{SameFile, met_file};
pub use request::{
    AuditRequest, Call, CaptureWords, DayChartRequest, DayHours, FarLineRequest, FarRequest,
    FileRequest, LinePorts, LiveRequest, Peer, Place, RecordsRequest, RecordsWords,
    RehearsalRequest, Request, Sight, SoldRequest, Terms,
};
pub use uses::{FileKind, FileUse, named_files};

//! The journal of a day: each event is logged before what is sent for it goes out.
#![tactic(auto)]

mod beginning;
mod digest;
mod disk;
mod disk_files;
mod event;
mod event_reading;
mod fault;
mod file;
mod head;
mod head_reading;
mod hex;
pub mod laws;
mod line_reading;
mod logging;
mod memory;
mod numbers;
mod pieces;
mod reading;
mod resuming;
mod version;
mod written;

pub use beginning::begin;
pub use bx_events::{Amendment, Event, LiveEvent};
pub use digest::plan_digest;
pub use disk::{Disk, DiskFailed};
pub use disk_files::SystemFile;
pub use event::{AmendedLine, LoggedEvent};
pub use event_reading::are_printable;
pub use fault::JournalFault;
pub use file::{DiskFile, FileDisk};
pub use head::{Head, JournalDay, OLDER_RULES, RULES, Wanted};
pub use logging::{commit, log_event, log_events, write_event};
pub use memory::MemoryDisk;
pub use numbers::{number_on, space_at};
pub use reading::{Follower, read_journal};
pub use resuming::resume;

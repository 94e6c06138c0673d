//! The file of a day's journal under its name: opened, locked and seen; begun anew, or gone on by.
#![tactic(auto)]

mod fault;
mod file_stats;
mod folder;
mod host;
mod locks;
mod named_file;
mod resuming;
mod starting;
mod synced_file;

pub use fault::{LiveFault, unlogged};
pub use file_stats::{FileStat, FileStats};
pub use host::Host;
pub use locks::Locks;
pub use named_file::NamedFile;
pub use resuming::{Resumed, resume_named, resume_on};
pub use starting::{JournalDisk, new_journal};
pub use synced_file::{SyncedFile, Syncs};

//! The system that an exchange runs on.

use crate::file_stats::FileStats;
use crate::locks::Locks;
use bx_day_openings::System;

/// A system whose files can also be locked, and told from others that have taken their names.
pub trait Host: System + Locks + FileStats {}

impl<H: System + Locks + FileStats> Host for H {}

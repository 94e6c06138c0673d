//! Readers and writers that are watched for failures.

ghost use Rattle.std.specs.Prelude.{◌≡◌, ◌+◌, ◌≤◌, ◌<◌, ◌||◌, is_err, ℕ, List, true, false, length, min, take, Ok, IsTrue, IsErr, IsErrOf, OnOk, OnErr, IfOk, IfSome};
ghost use Rattle.std.specs.Io.{ReadsAtMost, WritesAtMost};
ghost use Rattle.std.specs.Io.KnownBytes.{ReadConsumes, WriteAppends, Appends, Consumes, IsAtEnd, Keeps};
ghost use Rattle.bx_devices.specs.Octets.{takes_nothing};
ghost use Rattle.bx_devices.specs.declared.watched.TheConstants.{MAX_READS};

use std::alloc::{AllocError, Global};
use std::io;
use std::io::{Read, Write};

/// The most reads that are counted.
pub const MAX_READS: u32 = 8_388_608;

/// A reader or a writer, whether it has failed, and how many reads were passed on to it. It has failed where a
/// read, a write or a flush of it failed, or a write of at least one octet took none, and never otherwise.
#[derive(Drop)]
pub struct Watched<T> {
    inner: T,
    is_faulted: bool,
    reads: u32,
    ghost counted: { reads ≤ MAX_READS },
}

impl<T> Watched<T> {
    ghost use Rattle.bx_devices.specs.Watching.{device_of, is_faulted, reads_of};

    /// Watches the device from now on.
    pub fn new(inner: T) -> Self
        ensures device { device_of result ≡ inner }
        ensures faulted { is_faulted result ≡ false }
        ensures reads { reads_of result ≡ 0 }
    {
        Watched {
            inner,
            is_faulted: false,
            reads: 0,
        }
    }

    /// The device, watched no more.
    pub fn into_inner(self) -> T
        ensures { result ≡ device_of self }
    {
        let Watched {
            inner,
            is_faulted: _,
            reads: _,
        } = self;
        inner
    }

    /// Whether it has failed.
    pub fn faulted(&self) -> bool
        ensures { result ≡ is_faulted self.now }
    {
        self.is_faulted
    }

    /// How many reads were passed on, up to 8,388,608.
    pub fn reads(&self) -> u32
        ensures { result ≡ reads_of self.now }
    {
        self.reads
    }
}

impl<R: Read> Read for Watched<R> {
    ghost use Rattle.bx_devices.specs.Watching.{device_of, is_faulted, reads_of};

    ghost remaining = { λ w. R.remaining (device_of w) };

    /// Passes the read on.
    fn read(&mut self, buf: &mut [u8]) -> io::Result<usize>
        ensures bound { ReadsAtMost result buf.new }
        ensures bytes { ReadConsumes (R.remaining (device_of self.old)) (R.remaining (device_of self.new)) result buf.new }
        ensures faulted { is_faulted self.new ≡ (is_faulted self.old || is_err result) }
        ensures reads { reads_of self.new ≡ min (reads_of self.old + 1) MAX_READS }
    {
        if self.reads < MAX_READS {
            self.reads += 1;
        }
        let result = self.inner.read(buf);
        if result.is_err() {
            self.is_faulted = true;
        }
        result
    }
}

impl<W: Write> Write for Watched<W> {
    ghost use Rattle.bx_devices.specs.Watching.{device_of, is_faulted, reads_of};

    ghost contents = { λ w. W.contents (device_of w) };

    /// Passes the write on.
    fn write(&mut self, buf: &[u8]) -> io::Result<usize>
        ensures bound { WritesAtMost result buf.now }
        ensures bytes { WriteAppends (W.contents (device_of self.old)) (W.contents (device_of self.new)) result buf.now }
        ensures faulted { is_faulted self.new ≡ (is_faulted self.old || takes_nothing result buf.now) }
        ensures reads { reads_of self.new ≡ reads_of self.old }
    {
        let result = self.inner.write(buf);
        match &result {
            Ok(0) if !buf.is_empty() => self.is_faulted = true,
            Ok(_) => {}
            Err(_) => self.is_faulted = true,
        }
        result
    }

    /// Passes the flush on. One that failed counts as a write that failed.
    fn flush(&mut self) -> io::Result<()>
        ensures bytes { Keeps (W.contents (device_of self.old)) (W.contents (device_of self.new)) }
        ensures faulted { is_faulted self.new ≡ (is_faulted self.old || is_err result) }
        ensures reads { reads_of self.new ≡ reads_of self.old }
    {
        let result = self.inner.flush();
        if result.is_err() {
            self.is_faulted = true;
        }
        result
    }
}

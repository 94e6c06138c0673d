//! A reader or a writer for tests that gives little, and then fails.

ghost use Rattle.std.specs.Prelude.{◌≡◌, ◌≤◌, ◌<◌, ◌-◌, ◌==◌, None, Option, List, ℕ, IsErr, IfOk, Ok, min, length, if◌then◌else◌};

use std::io;
use std::io::{Error, ErrorKind, Read, Write};

/// Passes on some calls of at most so many octets each, and fails from then on.
#[derive(Drop)]
pub struct Failing<T> {
    inner: T,
    calls: u32,
    most: usize,
}

impl<T> Failing<T> {
    ghost use Rattle.bx_cases.specs.FailingDevice.{failing_device, calls_left, most_of};

    /// Passes on so many reads or writes of at most `most` octets each, and then fails each. With `most` 0 a
    /// write takes none.
    pub fn new(inner: T, calls: u32, most: usize) -> Self
        ensures device { failing_device result ≡ inner }
        ensures calls { calls_left result ≡ calls }
        ensures most { most_of result ≡ most }
    {
        Failing { inner, calls, most }
    }

    /// The device.
    pub fn into_inner(self) -> T
        ensures { result ≡ failing_device self }
    {
        let Failing {
            inner,
            calls: _,
            most: _,
        } = self;
        inner
    }
}

impl<R: Read> Read for Failing<R> {
    ghost use Rattle.bx_cases.specs.FailingDevice.{failing_device, calls_left, most_of, failing_remaining};
    ghost use Rattle.std.specs.Io.{ReadsAtMost};
    ghost use Rattle.std.specs.Io.KnownBytes.{ReadConsumes};

    // With no octet a read is no end, so nothing is told.
    ghost remaining = { failing_remaining R.remaining };

    fn read(&mut self, buf: &mut [u8]) -> io::Result<usize>
        ensures bound { ReadsAtMost result buf.new }
        ensures bytes { ReadConsumes (failing_remaining R.remaining self.old) (failing_remaining R.remaining self.new) result buf.new }
        ensures most { IfOk result (λ n. n ≤ most_of self.old) }
        ensures fails { calls_left self.old ≡ 0 → IsErr result }
        ensures calls { calls_left self.new ≡ calls_left self.old - 1 }
        ensures stays { most_of self.new ≡ most_of self.old }
    {
        if self.calls == 0 {
            return Err(Error::from(ErrorKind::Other));
        }
        self.calls -= 1;
        let most = self.most.min(buf.len());
        self.inner.read(&mut buf[..most])
    }
}

impl<W: Write> Write for Failing<W> {
    ghost use Rattle.bx_cases.specs.FailingDevice.{failing_device, calls_left, most_of};
    ghost use Rattle.std.specs.Io.{WritesAtMost};
    ghost use Rattle.std.specs.Io.KnownBytes.{WriteAppends, Keeps};

    ghost contents = { λ s. W.contents (failing_device s) };

    fn write(&mut self, buf: &[u8]) -> io::Result<usize>
        ensures bound { WritesAtMost result buf.now }
        ensures bytes { WriteAppends (W.contents (failing_device self.old)) (W.contents (failing_device self.new)) result buf.now }
        ensures most { IfOk result (λ n. n ≤ most_of self.old) }
        ensures fails { calls_left self.old ≡ 0 → IsErr result }
        ensures calls { calls_left self.new ≡ calls_left self.old - 1 }
        ensures stays { most_of self.new ≡ most_of self.old }
    {
        if self.calls == 0 {
            return Err(Error::from(ErrorKind::Other));
        }
        self.calls -= 1;
        let most = self.most.min(buf.len());
        self.inner.write(&buf[..most])
    }

    fn flush(&mut self) -> io::Result<()>
        ensures bytes { Keeps (W.contents (failing_device self.old)) (W.contents (failing_device self.new)) }
    {
        self.inner.flush()
    }
}

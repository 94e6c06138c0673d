//! The loop that reads a given count of octets.

ghost use Rattle.std.specs.Prelude.{◌≡◌, ◌≤◌, ◌<◌, length, take, IfOk, OnOk, OnErr};
ghost use Rattle.std.specs.Io.KnownBytes.{Consumes, IsAtEnd};
ghost use Rattle.bx_devices.specs.Watching.{device_of, is_faulted, reads_of};
ghost use Rattle.bx_frames.specs.Reading.{FailsToRead};
ghost use Rattle.bx_frames.specs.Inside.{ReadsFewerThan};

use crate::fault::LinkFault;
use bx_devices::Watched;
use std::io::Read;

/// A read failed.
#[derive(Clone, Copy)]
pub struct ReadFailed;

/// Reads until the buffer is full or the input ends, in as many reads as it takes. Answers how many octets
/// were read; at a failed read fewer than the buffer holds.
pub(crate) fn read_exact_octets<R: Read>(
    r: &mut Watched<R>,
    buf: &mut [u8],
) -> Result<usize, ReadFailed>
    ensures bound { IfOk result (λ n. n ≤ length buf.new) }
    ensures octets { IfOk result (λ n. Consumes (R.remaining (device_of r.old)) (R.remaining (device_of r.new)) (take n buf.new)) }
    ensures end { IfOk result (λ n. n < length buf.new → IsAtEnd (R.remaining (device_of r.new))) }
    ensures failed { OnErr result (FailsToRead r.old r.new) }
    ensures part { OnErr result (ReadsFewerThan R.remaining (length buf.new) r.old r.new) }
    ensures unfaulted { OnOk result (is_faulted r.new ≡ is_faulted r.old) }
    ensures counted { reads_of r.old ≤ reads_of r.new }
{
    let mut at = 0;
    while at < buf.len() {
        match r.read(&mut buf[at..]) {
            Ok(0) => return Ok(at),
            Ok(n) => at += n,
            Err(_) => return Err(ReadFailed),
        }
    }
    Ok(at)
}

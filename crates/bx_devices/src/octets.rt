//! The one loop that writes octets, and the one that reads to the end.

ghost use Rattle.std.specs.Prelude.{◌≡◌, ◌+◌, ◌≤◌, ◌<◌, ◌⊎◌, min, Ok, IsTrue, IsErrOf, OnOk, OnErr, IfOk, vec_len};
ghost use Rattle.std.specs.Io.KnownBytes.{Appends};
ghost use Rattle.bx_devices.specs.Watching.{device_of, is_faulted, reads_of};
ghost use Rattle.bx_devices.specs.Octets.{AppendsPart, AppendsPrefix, ReadsAll, ReadsPrefix, ReadsWithin};
ghost use Rattle.bx_devices.specs.Devices.{IsNeverAtEnd};

use crate::watched::{MAX_READS, Watched};
use std::alloc::{AllocError, Global};
use std::io::{Read, Write};

/// A write failed, or took none of the octets that it was given.
#[derive(Clone, Copy, Debug, PartialEq, Eq)]
pub struct WriteFailed;

/// Writes all the octets, in as many writes as it takes. `WriteFailed` where a write fails, or takes none of what it was given:
/// the writer is then faulted, and a prefix of the octets was written, but not all of them.
pub fn write_octets<W: Write>(w: &mut Watched<W>, bytes: &[u8]) -> Result<(), WriteFailed>
    ensures ok { OnOk result (Appends (W.contents (device_of w.old)) (W.contents (device_of w.new)) bytes.now) }
    ensures prefix { OnErr result (AppendsPrefix (W.contents (device_of w.old)) (W.contents (device_of w.new)) bytes.now) }
    ensures part { OnErr result (AppendsPart (W.contents (device_of w.old)) (W.contents (device_of w.new)) bytes.now) }
    ensures err { OnErr result (IsTrue (is_faulted w.new)) }
    ensures unfaulted { OnOk result (is_faulted w.new ≡ is_faulted w.old) }
    ensures reads { reads_of w.new ≡ reads_of w.old }
{
    let mut at = 0;
    while at < bytes.len() {
        match w.write(&bytes[at..]) {
            Ok(0) => return Err(WriteFailed),
            Ok(n) => at += n,
            Err(_) => return Err(WriteFailed),
        }
    }
    Ok(())
}

/// The most octets that are read to a reader's end.
pub const MAX_OCTETS: usize = 4_194_304;

/// Why a reader was not read to its end.
#[derive(Clone, Copy, Debug, PartialEq, Eq)]
pub enum ReadFault {
    /// A read failed, or as many reads as are counted did not reach the end.
    Failed,
    /// More octets came than are read.
    TooLong,
    /// Memory ran out.
    Memory,
}

/// Reads to the end: at most 4,194,304 octets in at most 8,388,608 reads. `TooLong` where one octet more comes, after which
/// nothing is read; `Failed` where a read fails, or so many reads do not reach the end; `Memory` where memory runs out.
pub fn read_octets<R: Read>(alloc: Global, r: &mut Watched<R>) -> Result<Vec<u8>, ReadFault>
    ensures all { IfOk result (λ v. ReadsAll (R.remaining (device_of r.old)) (R.remaining (device_of r.new)) v.items) }
    ensures fits { IfOk result (λ v. vec_len v ≤ MAX_OCTETS) }
    ensures failed { IsErrOf result ReadFault.Failed → IsNeverAtEnd R.remaining r.old r.new }
    ensures too_long { IsErrOf result ReadFault.TooLong → ReadsPrefix (R.remaining (device_of r.old)) (R.remaining (device_of r.new)) (MAX_OCTETS + 1) }
    ensures memory { IsErrOf result ReadFault.Memory → ReadsWithin (R.remaining (device_of r.old)) (R.remaining (device_of r.new)) MAX_OCTETS }
    ensures unfaulted { (is_faulted r.new ≡ is_faulted r.old) ⊎ (result ≡ Err ReadFault.Failed) }
{
    let mut octets = Vec::new(alloc);
    let mut buf = [0u8; 4096];
    while r.reads() < MAX_READS {
        let room = MAX_OCTETS + 1 - octets.len();
        let most = room.min(buf.len());
        let part = &mut buf[..most];
        match r.read(part) {
            Ok(0) => return Ok(octets),
            Ok(n) => {
                if octets.len() + n > MAX_OCTETS {
                    return Err(ReadFault::TooLong);
                }
                if octets.extend_from_slice(&part[..n]).is_err() {
                    return Err(ReadFault::Memory);
                }
            }
            Err(_) => return Err(ReadFault::Failed),
        }
    }
    Err(ReadFault::Failed)
}

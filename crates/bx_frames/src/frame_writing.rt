//! Writing frames, each in one write where the writer takes it whole.

ghost use Rattle.std.specs.Prelude.{◌≡◌, ◌+◌, ◌≤◌, ◌<◌, ◌++◌, length};
ghost use Rattle.std.specs.List.{flat_map};
ghost use Rattle.arrayvec.specs.ArrayVec.{array_vec_len};
ghost use Rattle.bx_frames.specs.Frames.{message_frame, turn_frame, day_frame, frame_with};
ghost use Rattle.bx_frames.specs.Writing.{Sends};

use arrayvec::ArrayVec;
use bx_devices::{Watched, WriteFailed, write_octets};
use bx_q931::Octets;
use std::io::Write;

/// The octets of a frame.
fn message_octets(message: &Octets) -> ArrayVec<u8, 263>
    ensures { result.items ≡ message_frame message.now.items }
{
    let octets = message.as_slice();
    let [high, low] = (octets.len() as u16).to_be_bytes();
    let mut frame = ArrayVec::new();
    frame.push(1);
    frame.push(high);
    frame.push(low);
    match frame.try_extend_from_slice(octets) {
        Ok(()) => frame,
        Err(_) => unreachable!(),
    }
}

/// Writes a message as a frame. At `WriteFailed` a prefix of the frame was written, but not all of it, and the writer is faulted.
pub fn write_message<W: Write>(w: &mut Watched<W>, message: &Octets) -> Result<(), WriteFailed>
    ensures { Sends W.contents w.old w.new result (message_frame message.now.items) }
{
    write_octets(w, &message_octets(message))
}

/// Writes messages as frames, in their order. At `WriteFailed` a prefix of them was written, but not all, and the writer is faulted.
pub fn write_messages<W: Write>(w: &mut Watched<W>, messages: &[Octets]) -> Result<(), WriteFailed>
    ensures { Sends W.contents w.old w.new result (flat_map frame_with messages.now) }
{
    for message in messages {
        write_message(w, message)?;
    }
    Ok(())
}

/// Writes the end of a turn with its moment. At `WriteFailed` a prefix of the frame was written, but not all of it, and the
/// writer is faulted.
pub fn write_end_of_turn<W: Write>(w: &mut Watched<W>, moment: u32) -> Result<(), WriteFailed>
    ensures { Sends W.contents w.old w.new result (turn_frame moment) }
{
    let [first, second, third, last] = moment.to_be_bytes();
    write_octets(w, &[2, 0, 4, first, second, third, last])
}

/// Writes the end of the day. At `WriteFailed` a prefix of the frame was written, but not all of it, and the writer is faulted.
pub fn write_end_of_day<W: Write>(w: &mut Watched<W>) -> Result<(), WriteFailed>
    ensures { Sends W.contents w.old w.new result day_frame }
{
    write_octets(w, &[3, 0, 0])
}

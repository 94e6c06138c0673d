//! Lines, each built before it is put.

ghost use Rattle.std.specs.Prelude.{◌≡◌, ◌+◌, ◌<◌, ◌≤◌, ◌++◌, ◌∷◌, [], length, decimal};
ghost use Rattle.arrayvec.specs.ArrayVec.{array_vec_len};
ghost use Rattle.bx_base.specs.Channels.{IsChannelSet, has_channel};
ghost use Rattle.bx_text.specs.Lines.{line_text, members_from, named, spaced};
ghost use Rattle.bx_text.specs.Inside.{member_text};

use arrayvec::ArrayVec;
use bx_base::ChannelSet;
use bx_channels::Channel;
use itoa::Buffer;

/// A line, or its prefix: no line is as long.
pub type Line = ArrayVec<u8, 128>;

/// Adds octets. With them the line has to have at most 128.
pub fn append(line: &mut Line, octets: &[u8])
    requires { array_vec_len line.old + length octets.now ≤ 128 }
    ensures items { line.new.items ≡ line.old.items ++ octets.now }
    ensures len { array_vec_len line.new ≡ array_vec_len line.old + length octets.now }
{
    match line.try_extend_from_slice(octets) {
        Ok(()) => {}
        Err(_) => unreachable!(),
    }
}

/// Adds a field, and what stands after it. With them the line has to have at most 128 octets.
pub fn add(line: &mut Line, field: &[u8], stop: u8)
    requires { array_vec_len line.old + length field.now < 128 }
    ensures items { line.new.items ≡ line.old.items ++ (field.now ++ stop ∷ []) }
    ensures len { array_vec_len line.new ≡ array_vec_len line.old + length field.now + 1 }
{
    append(line, field);
    line.push(stop);
}

/// Adds a decimal, and what stands after it: at most 21 octets. The line has to have at most 107 before.
pub fn add_decimal(line: &mut Line, number: u64, stop: u8)
    requires { array_vec_len line.old ≤ 107 }
    ensures items { line.new.items ≡ line.old.items ++ (decimal number ++ stop ∷ []) }
    ensures len { array_vec_len line.new ≤ array_vec_len line.old + 21 }
{
    let mut digits = Buffer::new();
    add(line, digits.format(number).as_bytes(), stop);
}

/// A line of a word and a decimal. The word has to have at most 20 octets.
pub fn named_line(word: &[u8], number: u64) -> Line
    requires { length word.now ≤ 20 }
    ensures { result.items ≡ line_text (named word.now number) }
{
    let mut line = Line::new();
    add(&mut line, word, b' ');
    add_decimal(&mut line, number, b'\n');
    line
}

/// Adds a space and the number of a channel, if it is in the set.
fn add_member(line: &mut Line, channels: &ChannelSet, number: u8)
    requires room { array_vec_len line.old ≤ 124 }
    requires set { IsChannelSet channels.now }
    ensures items { line.new.items ≡ line.old.items ++ member_text (has_channel channels.now number) number }
    ensures len { array_vec_len line.new ≤ array_vec_len line.old + 3 }
{
    let Some(channel) = Channel::new(number) else {
        return;
    };
    if channels.has(channel) {
        let mut digits = Buffer::new();
        line.push(b' ');
        append(line, digits.format(number).as_bytes());
    }
}

/// Adds the numbers of the channels in the set, in rising order, each with a space before it: at most 96 octets. The line has to
/// have at most 31 before.
pub fn add_members(line: &mut Line, channels: &ChannelSet)
    requires { array_vec_len line.old ≤ 31 }
    ensures items { line.new.items ≡ line.old.items ++ spaced (members_from 0 channels.now) }
    ensures len { array_vec_len line.new ≤ array_vec_len line.old + 96 }
    ensures set { IsChannelSet channels.now }
{
    // Read for the prover alone, which learns a limit from it.
    let _count = channels.count();
    for number in 0..32 {
        add_member(line, channels, number);
    }
}

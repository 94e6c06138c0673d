//! The key under which bookings are sold, as the line of a sale has it.

ghost use Rattle.std.specs.Prelude.{◌≡◌, ◌+◌, ◌≤◌, ◌++◌, false, length};
ghost use Rattle.arrayvec.specs.ArrayVec.{array_vec_len};
ghost use Rattle.bx_sales.specs.Tags.{tag_text, sale_text, is_tagged, behind_tag, tag_of, IsReadBack};
ghost use Rattle.bx_sales.specs.TagSizes.{IsTagSized};

use bx_journal::AmendedLine;

/// A key, and what is asked for under it: of each 32 hexadecimal digits of its digest.
#[derive(Clone, Copy, Debug, PartialEq, Eq)]
pub struct Tag {
    pub key: [u8; 32],
    pub body: [u8; 32],
}

/// Adds octets. They have to have room.
pub(crate) fn put(line: &mut AmendedLine, octets: &[u8])
    requires { array_vec_len line.old + length octets.now ≤ 200 }
    ensures items { line.new.items ≡ line.old.items ++ octets.now }
    ensures len { array_vec_len line.new ≡ array_vec_len line.old + length octets.now }
{
    match line.try_extend_from_slice(octets) {
        Ok(()) => {}
        Err(_) => unreachable!(),
    }
}

/// What stands before the booking in the line of a sale under a key.
fn tag_line(tag: &Tag) -> AmendedLine
    ensures items { result.items ≡ tag_text tag.now }
    ensures len { array_vec_len result ≡ 72 }
    ensures sized { IsTagSized tag.now }
{
    let mut line = AmendedLine::new();
    put(&mut line, b"under ");
    put(&mut line, &tag.key);
    put(&mut line, b" ");
    put(&mut line, &tag.body);
    put(&mut line, b" ");
    line
}

/// The line of a sale of the booking that a text of at most 128 octets tells, under this key, where there is one. Both are read in it
/// again, where the text alone does not read as one with a key.
pub fn sale_line(tag: Option<Tag>, booking: &[u8]) -> AmendedLine
    requires { length booking.now ≤ 128 }
    ensures text { result.items ≡ sale_text tag booking.now }
    ensures again { is_tagged booking.now ≡ false → IsReadBack tag booking.now result.items }
{
    let mut line = match tag {
        Some(tag) => tag_line(&tag),
        None => AmendedLine::new(),
    };
    put(&mut line, booking);
    line
}

/// Whether the line of a sale has a key.
fn is_tagged(line: &[u8]) -> bool
    ensures { result ≡ is_tagged line.now }
{
    line.len() >= 72 && &line[..6] == b"under ".as_slice()
}

/// The text of the booking in the line of a sale.
pub fn behind_tag(line: &[u8]) -> &[u8]
    ensures { result.now ≡ behind_tag line.now }
{
    if is_tagged(line) { &line[72..] } else { line }
}

/// The key in the line of a sale, where it has one.
pub fn tag_of(line: &[u8]) -> Option<Tag>
    ensures { result ≡ tag_of line.now }
{
    if !is_tagged(line) {
        return None;
    }
    let mut tag = Tag {
        key: [0; 32],
        body: [0; 32],
    };
    tag.key.copy_from_slice(&line[6..38]);
    tag.body.copy_from_slice(&line[39..71]);
    Some(tag)
}

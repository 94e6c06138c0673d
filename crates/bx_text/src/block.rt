//! Octets gathered into blocks, so that a text of many short lines takes few writes.

ghost use Rattle.std.specs.Prelude.{◌≡◌, [], OnOk};
ghost use Rattle.bx_text.specs.Gathering.{Gathers, held, octets_of};

use arrayvec::ArrayVec;
use bx_devices::{Watched, WriteFailed, write_octets};
use std::io::Write;

/// Up to 8,192 octets that were put and are not written yet. They lie in the block itself: it takes no memory.
#[derive(Drop)]
pub struct Block {
    octets: ArrayVec<u8, 8192>,
}

impl Block {
    /// An empty block.
    pub fn new() -> Self
        ensures { octets_of result ≡ [] }
    {
        Block {
            octets: ArrayVec::new(),
        }
    }

    /// Puts octets after those that were put before. Where the block has no room for them, what it holds is
    /// written first; octets that are longer than a block are then written as they are. `WriteFailed` as of `write_octets`: the
    /// writer is then faulted, and holds a prefix of what was put.
    pub fn put<W: Write>(&mut self, w: &mut Watched<W>, octets: &[u8]) -> Result<(), WriteFailed>
        ensures { Gathers W.contents (held w.old self.old) (held w.new self.new) result octets.now }
    {
        match self.octets.try_extend_from_slice(octets) {
            Ok(()) => Ok(()),
            Err(_) => self.put_first(w, octets),
        }
    }

    /// Writes what the block holds, and then puts octets.
    fn put_first<W: Write>(&mut self, w: &mut Watched<W>, octets: &[u8]) -> Result<(), WriteFailed>
        ensures { Gathers W.contents (held w.old self.old) (held w.new self.new) result octets.now }
    {
        self.write_out(w)?;
        match self.octets.try_extend_from_slice(octets) {
            Ok(()) => Ok(()),
            Err(_) => write_octets(w, octets),
        }
    }

    /// Writes what the block holds, and leaves it empty. `WriteFailed` as of `write_octets`: the writer is then faulted, and
    /// holds a prefix of what was put.
    pub fn write_out<W: Write>(&mut self, w: &mut Watched<W>) -> Result<(), WriteFailed>
        ensures text { Gathers W.contents (held w.old self.old) (held w.new self.new) result [] }
        ensures empty { OnOk result (octets_of self.new ≡ []) }
    {
        write_octets(w, &self.octets)?;
        self.octets.clear();
        Ok(())
    }
}

//! Writers that take little, and readers that give little.

use bx_cases::Failing;
use bx_devices::{ReadFault, Watched, read_octets, write_octets};
use std::alloc::{AllocError, Global};

/// How many writes succeed, how much each takes at most, and how much of the text is then written.
static WRITERS: [(u32, usize, usize); 5] = [
    (21, 1, 21),
    (1, 0, 0),
    (0, 9, 0),
    (4, 9, 32),
    (3, 9, 27),
];

fn zeros(alloc: Global, count: usize) -> Result<Vec<u8>, AllocError> {
    vec![in alloc; 0u8; count]
}

/// Whether just so much of the text is written, and the writer is faulted where that is not all.
fn writes(alloc: Global, text: &[u8], writer: (u32, usize, usize)) -> bool {
    let (calls, most, written) = writer;
    let mut w = Watched::new(Failing::new(Vec::new(alloc), calls, most));
    let whole = write_octets(&mut w, text).is_ok();
    let faulted = w.faulted();
    let held = w.into_inner().into_inner();
    let is_prefix = held.len() == written && text.starts_with(held.as_slice());
    is_prefix && whole == (written == text.len()) && faulted != whole
}

#[test]
fn writers_that_take_little(rt: HostRuntime) {
    let text = b"bx-plan 3\nchannels 1\nbookings 1\n";
    for writer in WRITERS {
        assert!(rt; writes(rt.alloc(), text, writer), "{writer:?}");
    }
}

/// Whether a reader that gives one octet a read is read whole by one read more.
fn reads_whole(alloc: Global) -> bool {
    let mut r = Watched::new(Failing::new(b"abcdef".as_slice(), 7, 1));
    match read_octets(alloc, &mut r) {
        Ok(octets) => octets.as_slice() == b"abcdef".as_slice() && r.reads() == 7,
        Err(_) => false,
    }
}

/// Whether it is a failed read that ends the reading of one that fails after so many reads.
fn fails(alloc: Global, calls: u32) -> bool {
    let mut r = Watched::new(Failing::new(b"abcdef".as_slice(), calls, 1));
    let failed = matches!(read_octets(alloc, &mut r), Err(ReadFault::Failed));
    failed && r.faulted()
}

/// Whether so many zeros are read; false only where they are too long.
fn are_zeros_read(alloc: Global, count: usize) -> Option<bool> {
    let zeros = zeros(alloc, count).ok()?;
    let mut r = Watched::new(zeros.as_slice());
    match read_octets(alloc, &mut r) {
        Ok(_) => Some(true),
        Err(ReadFault::TooLong) => Some(false),
        Err(_) => None,
    }
}

#[test]
fn readers_that_give_little(rt: HostRuntime) {
    assert!(rt; reads_whole(rt.alloc()), "whole");
    for calls in 0..7u32 {
        assert!(rt; fails(rt.alloc(), calls), "{calls}");
    }
    assert!(rt;
        are_zeros_read(rt.alloc(), 4_194_304) == Some(true),
        "the most"
    );
    assert!(rt;
        are_zeros_read(rt.alloc(), 4_194_305) == Some(false),
        "one more"
    );
}

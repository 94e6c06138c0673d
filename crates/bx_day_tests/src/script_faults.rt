//! Texts that are no script, with the first fault of each, and the longest script.

use bx_far::Script;
use std::alloc::{AllocError, Global};
use std::test::Fail;

/// Texts with their first fault, as it is printed.
static FAULTS: [(&str, &str); 24] = [
    ("", "S1 BadHeader"),
    ("number,policy\n", "S1 BadHeader"),
    ("number,policy,seconds,line\n", "S1 BadHeader"),
    ("number,policy,seconds,channel,\n", "S1 BadHeader"),
    ("number,policy,seconds\n*,answer\n", "S2 WrongColumns 1"),
    ("number,policy,seconds\n*,answer,0,\n", "S2 WrongColumns 1"),
    (
        "number,policy,seconds,channel\n*,answer,0,\n*,answer,0\n",
        "S2 WrongColumns 2",
    ),
    ("number,policy,seconds\n*,dance,0\n", "S3 BadEntry 1"),
    (
        "number,policy,seconds\n*,busy,0\n12a,busy,0\n",
        "S3 BadEntry 2",
    ),
    ("number,policy,seconds\n,busy,0\n", "S3 BadEntry 1"),
    (
        "number,policy,seconds\n1234567890123456,busy,0\n",
        "S3 BadEntry 1",
    ),
    ("number,policy,seconds\n*,answer,\n", "S3 BadEntry 1"),
    ("number,policy,seconds\n*,answer,100001\n", "S3 BadEntry 1"),
    ("number,policy,seconds\n*,answer,0000001\n", "S3 BadEntry 1"),
    ("number,policy,seconds\n*,answer,-1\n", "S3 BadEntry 1"),
    ("number,policy,seconds\n1234,call,1\n", "S3 BadEntry 1"),
    (
        "number,policy,seconds,channel\n*,busy,0,1\n",
        "S3 BadEntry 1",
    ),
    (
        "number,policy,seconds,channel\n*,call,1,1\n",
        "S3 BadEntry 1",
    ),
    (
        "number,policy,seconds,channel\n1234,call,0,1\n",
        "S3 BadEntry 1",
    ),
    (
        "number,policy,seconds,channel\n1234,call,1,\n",
        "S3 BadEntry 1",
    ),
    (
        "number,policy,seconds,channel\n1234,call,1,16\n",
        "S3 BadEntry 1",
    ),
    (
        "number,policy,seconds,channel\n1234,call,1,32\n",
        "S3 BadEntry 1",
    ),
    (
        "number,policy,seconds,channel\n1234,call,1,001\n",
        "S3 BadEntry 1",
    ),
    (
        "number,policy,seconds,channel\n1234,call,1,1\n1234,call,1,\"2\n\"\n",
        "S3 BadEntry 2",
    ),
];

/// Whether this text is refused, and printed so.
fn is_refused(alloc: Global, text: &[u8], printed: &str) -> bool {
    match Script::read(alloc, text) {
        Ok(_) => false,
        Err(fault) => match fault.to_string(alloc) {
            Ok(words) => words.as_str() == printed,
            Err(_) => false,
        },
    }
}

#[test]
fn faults_of_a_script(rt: HostRuntime) {
    for (text, printed) in &FAULTS {
        assert!(rt; is_refused(rt.alloc(), text.as_bytes(), printed), "{text}");
    }
}

/// A script of so many rows and the last.
pub(crate) fn long_script(alloc: Global, rows: u32, last: &str) -> Result<Vec<u8>, AllocError> {
    let mut text = Vec::new(alloc);
    text.extend_from_slice(b"number,policy,seconds\n")?;
    for _row in 0..rows {
        text.extend_from_slice(b"1234,\"busy\",0\n")?;
    }
    text.extend_from_slice(last.as_bytes())?;
    Ok(text)
}

#[test]
fn one_row_too_many(rt: HostRuntime) -> Result<(), Fail> {
    let text = long_script(rt.alloc(), 16000, "no row\n")?;
    assert!(rt; is_refused(rt.alloc(), &text, "S4 TooMany"), "one more");
    Ok(())
}

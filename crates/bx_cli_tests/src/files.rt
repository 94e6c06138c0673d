//! The files of the cases, in a folder of their own.

use crate::program::{Expected, is_done, run};
use std::alloc::{AllocError, Global};
use std::test::Fail;
use std::{env, fs};

/// The files of the cases. In what follows `@` stands for the folder that they lie in.
static FILES: [(&str, &str); 22] = [
    (
        "one.csv",
        "start,end,number,pay\n2026-01-05T00:00:00Z,2026-01-05T00:01:00Z,1234,5\n",
    ),
    ("none.csv", "start,end,number,pay\n"),
    (
        "late.csv",
        "start,end,number,pay\n2026-01-05T00:00:10Z,2026-01-05T00:00:20Z,1234,7\n",
    ),
    (
        "four.csv",
        "start,end,number,pay\r\n2026-01-05T00:00:00Z,2026-01-05T00:00:10Z,100,3\r\n\"2026-01-05T00:00:00Z\",2026-01-05T00:00:10Z,101,2\r\n\r\n2026-01-05T00:00:05Z,2026-01-05T00:00:15Z,102,4\r\n2026-01-05T00:00:12Z,2026-01-05T00:00:20Z,103,1\r\n",
    ),
    (
        "four.txt",
        "bx-plan 3\nchannels 1 2\nbookings 4\n0 10 3 100 1 free out\n0 10 2 101 - free out\n5 15 4 102 2 free out\n12 20 1 103 1 free out\nprices 1\n5 2\ntotal 8\nend\n",
    ),
    (
        "must.csv",
        "start,end,number,pay,must,direction\n2026-01-05T00:00:00Z,2026-01-05T00:00:10Z,1,4,yes,out\n2026-01-05T00:00:05Z,2026-01-05T00:00:15Z,1,6,yes,in\n",
    ),
    (
        "mixed.csv",
        "start,end,number,pay,must,direction\n2026-01-05T00:00:00Z,2026-01-05T00:00:10Z,1,4,yes,out\n2026-01-05T00:00:05Z,2026-01-05T00:00:15Z,2,6,no,in\n2026-01-05T00:00:08Z,2026-01-05T00:00:12Z,3,5,no,out\n",
    ),
    (
        "bad.csv",
        "start,end,number,pay\n2026-01-05T00:00:00Z,2026-01-05T00:01:00Z,12a,5\n",
    ),
    ("short.txt", "bx-plan 3\nchannels 1 2\n"),
    (
        "spring.csv",
        "start,end,number,pay\n2026-03-29T01:30:00+01:00,2026-03-29T03:30:00+02:00,1234,5\n2026-03-29T03:30:00+02:00,2026-03-30T00:00:00+02:00,1234,5\n",
    ),
    (
        "autumn.csv",
        "start,end,number,pay\n2026-10-25T02:30:00+02:00,2026-10-25T02:30:00+01:00,1234,5\n2026-10-25T02:30:00+01:00,2026-10-26T00:00:00+01:00,1234,5\n",
    ),
    ("binary.csv", "\u{0}\u{1}\u{7f}"),
    ("empty.csv", ""),
    (
        "one.txt",
        "bx-plan 1\nchannels 1\nbookings 1\n0 60 5 1234 1\nprices 0\ntotal 5\nend\n",
    ),
    (
        "two.txt",
        "bx-plan 3\nchannels 1 2\nbookings 3\n0 60 5 1234 1 free out\n10 20 4 1234 2 free in\n15 20 1 77 - free out\nprices 1\n15 1\ntotal 9\nend\n",
    ),
    ("answer.csv", "number,policy,seconds\n*,answer,0\n"),
    (
        "calls.csv",
        "number,policy,seconds,channel\n1234,call,12,2\n1234,silent,0,\n",
    ),
    ("dance.csv", "number,policy,seconds\n*,dance,0\n"),
    (
        "trade.txt",
        "bx-plan 3\nchannels 1\nbookings 3\n0 30 10 1 1 free out\n0 10 4 2 - free out\n20 30 5 3 - free out\nprices 2\n0 4\n20 5\ntotal 10\nend\n",
    ),
    (
        "must.txt",
        "bx-plan 3\nchannels 1\nbookings 2\n0 60 5 1234 1 must out\n30 90 7 1234 - free out\nprices 1\n30 7\ntotal 5\nend\n",
    ),
    (
        "unproved.txt",
        "bx-plan 3\nchannels 1\nbookings 1\n0 60 5 1234 - free out\nprices 0\ntotal 0\nend\n",
    ),
    (
        "none.txt",
        "bx-plan 3\nchannels 1\nbookings 0\nprices 0\ntotal 0\nend\n",
    ),
];

/// A folder of its own with the files.
pub(crate) fn folder(rt: &HostRuntime) -> Result<String, Fail> {
    let above = env::temp_dir(rt)?;
    for n in 0..1000u32 {
        let name = format!(in rt.alloc(); "{}/bx-test-{n}", above.to_string_lossy())?;
        if fs::create_dir(rt, name.as_str()).is_ok() {
            return filled(rt, name);
        }
    }
    Err(Fail::from("no folder"))
}

fn zeros(alloc: Global, count: usize) -> Result<Vec<u8>, AllocError> {
    vec![in alloc; 0u8; count]
}

fn filled(rt: &HostRuntime, folder: String) -> Result<String, Fail> {
    for (name, text) in &FILES {
        let path = format!(in rt.alloc(); "{folder}/{name}")?;
        fs::write(rt, path.as_str(), *text)?;
    }
    let path = format!(in rt.alloc(); "{folder}/long.csv")?;
    fs::write(rt, path.as_str(), zeros(rt.alloc(), 4_194_305)?)?;
    Ok(folder)
}

/// The text with the folder in place of `@`.
pub(crate) fn placed(alloc: Global, text: &str, folder: &str) -> Result<String, Fail> {
    let mut all = String::new(alloc);
    for (k, part) in text.split('@').enumerate() {
        if k > 0 {
            all.push_str(folder)?;
            all.push('/')?;
        }
        all.push_str(part)?;
    }
    Ok(all)
}

/// The words that spaces part.
pub(crate) fn parted<'a>(alloc: Global, words: &'a str) -> Result<Vec<&'a str>, AllocError> {
    let mut parts = Vec::new(alloc);
    for word in words.split(' ') {
        parts.push(word)?;
    }
    Ok(parts)
}

/// Whether the words, on an empty input, do this.
pub(crate) fn does(
    rt: &HostRuntime,
    folder: &str,
    words: &str,
    expected: Expected<'_>,
) -> Result<bool, Fail> {
    let words = placed(rt.alloc(), words, folder)?;
    let parts = parted(rt.alloc(), &words)?;
    let (status, output, errors) = expected;
    let errors = placed(rt.alloc(), errors, folder)?;
    let done = run(rt, &parts, "");
    Ok(is_done(&done, (status, output, errors.as_str())))
}

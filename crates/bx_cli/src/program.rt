//! The program: its words and the standard streams, handed to `main_words`.

ghost use Rattle.std.specs.Prelude.{◌≤◌, IfOk};

use crate::words::main_words;
use bx_devices::Watched;
use std::alloc::{AllocError, Global};
use std::fs::File;
use std::io::{ErrorKind, IsTerminal};
use std::os::unix::io::AsRawFd;
use std::{env, io};

/// The words as texts.
fn texts(alloc: Global, words: &[String]) -> Result<Vec<&str>, AllocError> {
    let mut all = Vec::new(alloc);
    for word in words {
        all.push(word.as_str())?;
    }
    Ok(all)
}

fn status_of(rt: &HostRuntime, words: &[String]) -> Result<u8, AllocError>
    ensures { IfOk result (λ status. status ≤ 3) }
{
    let texts = texts(rt.alloc(), words)?;
    let mut input = Watched::new(rt.stdin());
    let mut output = Watched::new(rt.stdout());
    let mut errors = Watched::new(rt.stderr());
    let is_terminal = rt.stderr().is_terminal();
    let status = main_words(
        rt,
        &texts,
        &mut input,
        &mut output,
        &mut errors,
        is_terminal,
    );
    Ok(status)
}

/// The status where the words themselves could not be had: 2 where one of them is no text, else 1.
fn without_words(rt: &HostRuntime, error: &io::Error) -> u8
    ensures { result ≤ 2 }
{
    if error.kind() == ErrorKind::InvalidData {
        let _ = rt.eprintln("error: a word is no text in UTF-8");
        return 2;
    }
    no_memory(rt)
}

/// The status where the words found no memory.
fn no_memory(rt: &HostRuntime) -> u8
    ensures { result ≤ 2 }
{
    let _ = rt.eprintln("bx: Memory");
    1
}

/// Holds a folder open in place of each standard stream that is closed, so that no file or socket which is opened later is taken for one.
/// As before, nothing can be read from such a stream or written to it.
fn stand_ins(rt: &HostRuntime) -> [Option<File>; 3] {
    let mut held = [None, None, None];
    for place in &mut held {
        match File::open(rt, "/") {
            Ok(folder) if folder.as_raw_fd() <= 2 => *place = Some(folder),
            _ => break,
        }
    }
    held
}

/// Runs the program on its words, and answers its status, as `main_words` has it.
pub fn run_program(rt: &HostRuntime) -> u8
    ensures { result ≤ 3 }
{
    let _held = stand_ins(rt);
    let words = match env::args(rt) {
        Ok(words) => words,
        Err(error) => return without_words(rt, &error),
    };
    let Ok(words) = words.skip(1).collect::<Vec<String>>(rt.alloc()) else {
        return no_memory(rt);
    };
    match status_of(rt, &words) {
        Ok(status) => status,
        Err(_) => no_memory(rt),
    }
}

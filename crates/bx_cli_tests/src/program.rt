//! The program on words and an input, in memory.

use bx_cases::Failing;
use bx_cli::main_words;
use bx_devices::Watched;

/// What the program does: its status, standard output and standard error.
#[derive(Drop)]
pub(crate) struct Done {
    pub(crate) status: u8,
    pub(crate) output: Vec<u8>,
    pub(crate) errors: Vec<u8>,
}

/// A status, standard output, and standard error; at status 2 how that begins.
pub(crate) type Expected<'a> = (u8, &'a str, &'a str);

/// What is answered, of which there are four kinds.
#[derive(Clone, Copy)]
pub(crate) enum Answer {
    /// Status 0, and this on standard output.
    Prints(&'static str),
    /// Status 1, and this on standard error.
    Fails(&'static str),
    /// Status 3, and this on standard error: a live day that a start again cannot mend.
    FailsForGood(&'static str),
    /// Status 2, and a standard error that tells what is wrong with the words.
    Misused,
}

impl Answer {
    pub(crate) fn expected(self) -> Expected<'static> {
        match self {
            Answer::Prints(output) => (0, output, ""),
            Answer::Fails(errors) => (1, "", errors),
            Answer::FailsForGood(errors) => (3, "", errors),
            Answer::Misused => (2, "", "error: "),
        }
    }
}

pub(crate) fn run(rt: &HostRuntime, words: &[&str], text: &str) -> Done {
    run_seen(rt, words, text, false)
}

/// The same, where standard error is a terminal.
pub(crate) fn run_seen(rt: &HostRuntime, words: &[&str], text: &str, is_terminal: bool) -> Done {
    let mut input = Watched::new(text.as_bytes());
    let mut output = Watched::new(Vec::new(rt.alloc()));
    let mut errors = Watched::new(Vec::new(rt.alloc()));
    let status = main_words(rt, words, &mut input, &mut output, &mut errors, is_terminal);
    Done {
        status,
        output: output.into_inner(),
        errors: errors.into_inner(),
    }
}

/// Whether just this is done. What is wrong with words is told in lines of `clap`'s, of which the first is looked at.
pub(crate) fn is_done(done: &Done, expected: Expected<'_>) -> bool {
    let (status, output, errors) = expected;
    let is_told = if status == 2 {
        done.errors.starts_with(errors.as_bytes())
    } else {
        done.errors.as_slice() == errors.as_bytes()
    };
    is_told && done.status == status && done.output.as_slice() == output.as_bytes()
}

/// Whether an output that takes so many octets, one at a time, has just that prefix of this text, and the failure is printed and
/// answered where that is not all of it.
pub(crate) fn is_prefix_written(rt: &HostRuntime, words: &[&str], text: &str, taken: u32) -> bool {
    let mut input = Watched::new(b"".as_slice());
    let mut output = Watched::new(Failing::new(Vec::new(rt.alloc()), taken, 1));
    let mut errors = Watched::new(Vec::new(rt.alloc()));
    let status = main_words(rt, words, &mut input, &mut output, &mut errors, false);
    let written = output.into_inner().into_inner();
    let length = text.len().min(taken as usize);
    let (expected, said) = if length == text.len() {
        (0, "")
    } else {
        (1, "bx: F2 CannotWrite\n")
    };
    let is_prefix = written.len() == length && text.as_bytes().starts_with(&written);
    is_prefix && status == expected && errors.into_inner().as_slice() == said.as_bytes()
}

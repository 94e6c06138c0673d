//! Words while standard input, standard output or standard error fails.

use crate::worked_texts::ONE;
use bx_cases::Failing;
use bx_cli::main_words;
use bx_devices::Watched;

/// Words with their name, and their status.
static CASES: [(&str, &[&str], u8); 4] = [
    ("no words", &[], 1),
    ("help", &["--help"], 1),
    ("a message", &["decode", "080280015A"], 1),
    ("a word that is none", &["dance"], 2),
];

fn status_of(rt: &HostRuntime, words: &[&str]) -> u8 {
    let mut input = Watched::new(ONE.as_bytes());
    let mut output = Watched::new(Failing::new(Vec::new(rt.alloc()), 0, 1));
    let mut errors = Watched::new(Failing::new(Vec::new(rt.alloc()), 0, 1));
    main_words(rt, words, &mut input, &mut output, &mut errors, false)
}

#[test]
fn words_without_outputs(rt: HostRuntime) {
    for (name, words, status) in &CASES {
        assert!(rt; status_of(&rt, words) == *status, "{name}");
    }
}

/// What is printed on standard error without words, where standard input fails at its first read, or standard output at its
/// first write.
fn printed(rt: &HostRuntime, reads: u32, writes: u32) -> Vec<u8> {
    let mut input = Watched::new(Failing::new(ONE.as_bytes(), reads, 100));
    let mut output = Watched::new(Failing::new(Vec::new(rt.alloc()), writes, 100));
    let mut errors = Watched::new(Vec::new(rt.alloc()));
    let _ = main_words(rt, &[], &mut input, &mut output, &mut errors, false);
    errors.into_inner()
}

#[test]
fn faults_as_they_are_printed(rt: HostRuntime) {
    assert!(rt;
        printed(&rt, 0, 100).as_slice() == b"bx: F1 CannotRead -\n".as_slice(),
        "standard input"
    );
    assert!(rt;
        printed(&rt, 100, 0).as_slice() == b"bx: F2 CannotWrite\n".as_slice(),
        "standard output"
    );
    assert!(rt; printed(&rt, 100, 100).is_empty(), "neither");
}

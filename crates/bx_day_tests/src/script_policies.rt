//! What a script says of a called number.

use crate::script_faults::long_script;
use bx_calls::Policy;
use bx_channels::Number;
use bx_far::Script;
use std::alloc::Global;
use std::test::Fail;

/// A script with every policy.
static POLICIES: &str =
    "\u{feff}number,policy,seconds,channel\r\n1,answer,000100,\r\n2,busy,0,\r\n3,silent,0,\r\n4,alert,0,\r\n5,proceed,0,\r\n6,clear,100000,\r\n7,call,100000,01\r\n1,busy,0,\r\n*,answer,7,\r\n8,silent,0,\r\n";

/// Called numbers, none where nothing stands, and what is done with them.
static CALLED: [(&str, Policy); 10] = [
    ("1", Policy::Answer(100)),
    ("2", Policy::Busy),
    ("3", Policy::Silent),
    ("4", Policy::Alert),
    ("5", Policy::Proceed),
    ("6", Policy::Clear(100_000)),
    ("7", Policy::Answer(7)),
    ("8", Policy::Answer(7)),
    ("01", Policy::Answer(7)),
    ("", Policy::Answer(7)),
];

fn does(script: &Script, called: &str, policy: Policy) -> bool {
    script.policy_of(Number::new(called.as_bytes())) == policy
}

/// Whether the text is read, and then does this with a call to this number.
fn reads_and_does(alloc: Global, text: &[u8], called: &str, policy: Policy) -> bool {
    match Script::read(alloc, text) {
        Ok(script) => does(&script, called, policy),
        Err(_) => false,
    }
}

#[test]
fn policies_of_a_script(rt: HostRuntime) {
    for (called, policy) in &CALLED {
        assert!(rt;
            reads_and_does(rt.alloc(), POLICIES.as_bytes(), called, *policy),
            "{called}"
        );
    }
    let empty = b"number,policy,seconds";
    assert!(rt;
        reads_and_does(rt.alloc(), empty, "", Policy::Answer(0)),
        "empty"
    );
}

#[test]
fn as_many_rows_as_fit(rt: HostRuntime) -> Result<(), Fail> {
    let text = long_script(rt.alloc(), 15999, "*,silent,0\n")?;
    assert!(rt;
        reads_and_does(rt.alloc(), &text, "", Policy::Silent),
        "as many"
    );
    Ok(())
}

//! The faults of the link, as they are printed.

use bx_frames::LinkFault;
use std::test::Fail;

static FAULTS: [(LinkFault, &str); 9] = [
    (LinkFault::ReadFailed, "L1 ReadFailed"),
    (LinkFault::WriteFailed, "L2 WriteFailed"),
    (LinkFault::EndedInFrame, "L3 EndedInFrame"),
    (LinkFault::BadLength, "L4 BadLength"),
    (LinkFault::UnknownKind, "L5 UnknownKind"),
    (LinkFault::MoreThan64Messages, "L6 MoreThan64Messages"),
    (LinkFault::WrongMoment, "L7 WrongMoment"),
    (LinkFault::Closed, "L8 Closed"),
    (LinkFault::LinkReset, "L9 LinkReset"),
];

#[test]
fn fault_texts(rt: HostRuntime) -> Result<(), Fail> {
    for (fault, text) in &FAULTS {
        let printed = fault.to_string(rt.alloc())?;
        assert_eq!(rt; printed.as_str(), *text);
    }
    Ok(())
}

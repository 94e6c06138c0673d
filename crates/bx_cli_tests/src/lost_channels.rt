//! Days on which a channel is lost, by journals that were written by hand: told, printed, and refused.

use crate::file_commands::{Case, first_wrong};
use crate::files::folder;
use crate::program::Answer::{Fails, Prints};
use std::alloc::{AllocError, Global};
use std::fs;
use std::test::Fail;

/// Two channels. The call of row 1 ends at 5, and row 2 waits behind it; rows 4 and 5 overlap.
const PLAN: &str =
    "bx-plan 3\nchannels 1 2\nbookings 5\n0 5 9 100 1 free out\n5 60 8 200 1 free out\n0 70 7 300 2 free out\n70 90 6 400 1 free out\n80 95 5 500 2 free out\nprices 0\ntotal 35\nend\n";

/// Behind the line of the rules; rows 1 and 3 are answered, and nothing else is.
const MORNING: &str =
    "plan 37fbb372c012c05cd8362f6ff7491b955ebb17635efab7964509f4f8502f5920\nday live 1577836800 1\ntick\nheard 0802800107\nheard 0802800307\n";

/// A journal: by which rules, the moment at which its last lines stand, and these. At moment 43 channel 1 is in maintenance, 38 seconds after the end of row 1.
struct Journal {
    name: &'static str,
    rules: &'static str,
    moment: u32,
    lines: &'static str,
}

static JOURNALS: [Journal; 18] = [
    Journal {
        name: "left",
        rules: "3",
        moment: 43,
        lines: "delayed 2 44 60 8 200 - free out\ndropped 2\ndropped 5\nout 1\n",
    },
    Journal {
        name: "cut",
        rules: "3",
        moment: 43,
        lines: "delayed 2 44 60 8 200 - free out\ndropped 2\ndrop",
    },
    Journal {
        name: "delayed",
        rules: "3",
        moment: 43,
        lines: "delayed 2 44 60 8 200 - free out\n",
    },
    Journal {
        name: "delayed_early",
        rules: "3",
        moment: 42,
        lines: "delayed 2 43 60 8 200 - free out\n",
    },
    Journal {
        name: "delayed_longer",
        rules: "3",
        moment: 43,
        lines: "delayed 2 45 60 8 200 - free out\n",
    },
    Journal {
        name: "delayed_none",
        rules: "3",
        moment: 43,
        lines: "delayed 9 44 60 8 200 - free out\n",
    },
    Journal {
        name: "delayed_bare",
        rules: "3",
        moment: 43,
        lines: "delayed 2\n",
    },
    Journal {
        name: "dropped_early",
        rules: "3",
        moment: 42,
        lines: "dropped 4\n",
    },
    Journal {
        name: "dropped_begun",
        rules: "3",
        moment: 43,
        lines: "dropped 2\n",
    },
    Journal {
        name: "dropped_none",
        rules: "3",
        moment: 43,
        lines: "dropped 9\n",
    },
    Journal {
        name: "dropped_unnamed",
        rules: "3",
        moment: 43,
        lines: "dropped two\n",
    },
    Journal {
        name: "out_early",
        rules: "3",
        moment: 42,
        lines: "out 1\n",
    },
    Journal {
        name: "out_other",
        rules: "3",
        moment: 43,
        lines: "out 2\n",
    },
    Journal {
        name: "out_beyond",
        rules: "3",
        moment: 43,
        lines: "out 99\n",
    },
    Journal {
        name: "out_unnamed",
        rules: "3",
        moment: 43,
        lines: "out one\n",
    },
    Journal {
        name: "out_crowded",
        rules: "3",
        moment: 43,
        lines: "out 1\n",
    },
    Journal {
        name: "sold",
        rules: "3",
        moment: 43,
        lines: "sold 62 69 1 9 - free out\n",
    },
    Journal {
        name: "sold_older",
        rules: "2",
        moment: 43,
        lines: "sold 62 69 1 9 - free out\n",
    },
];

/// What the journals tell of their days, or why they are none.
static CASES: [Case; 19] = [
    (
        "audit @lost.txt @left",
        Prints("1 carried 1 5\n2 dropped\n3 live\n4 waiting\n5 dropped\nmaintenance 1\n"),
    ),
    (
        "sold @lost.txt @left",
        Prints(
            "bx-plan 3\nchannels 1 2\nbookings 5\n0 5 9 100 1 free out\n44 60 8 200 - free out\n0 70 7 300 2 free out\n70 90 6 400 2 free out\n80 95 5 500 - free out\nprices 0\ntotal 22\nend\n",
        ),
    ),
    (
        "audit @lost.txt @cut",
        Prints("1 carried 1 5\n2 dropped\n3 live\n4 waiting\n5 waiting\nmaintenance 1\n"),
    ),
    (
        "audit @lost.txt @delayed",
        Prints("1 carried 1 5\n2 waiting\n3 live\n4 waiting\n5 waiting\nmaintenance 1\n"),
    ),
    (
        "audit @lost.txt @delayed_early",
        Fails("bx: J15 LateChange\n"),
    ),
    (
        "audit @lost.txt @delayed_longer",
        Fails("bx: J15 LateChange\n"),
    ),
    (
        "audit @lost.txt @delayed_none",
        Fails("bx: J14 NoBooking\n"),
    ),
    ("audit @lost.txt @delayed_bare", Fails("bx: J9 BadSale\n")),
    (
        "audit @lost.txt @dropped_early",
        Fails("bx: J15 LateChange\n"),
    ),
    (
        "audit @lost.txt @dropped_begun",
        Fails("bx: J15 LateChange\n"),
    ),
    (
        "audit @lost.txt @dropped_none",
        Fails("bx: J14 NoBooking\n"),
    ),
    (
        "audit @lost.txt @dropped_unnamed",
        Fails("bx: J9 BadSale\n"),
    ),
    ("audit @lost.txt @out_early", Fails("bx: J16 BadChannel\n")),
    ("audit @lost.txt @out_other", Fails("bx: J16 BadChannel\n")),
    ("audit @lost.txt @out_beyond", Fails("bx: J16 BadChannel\n")),
    ("audit @lost.txt @out_unnamed", Fails("bx: J9 BadSale\n")),
    (
        "audit @lost.txt @out_crowded",
        Fails("bx: J12 NotCarried\n"),
    ),
    ("audit @lost.txt @sold", Fails("bx: J12 NotCarried\n")),
    (
        "audit @lost.txt @sold_older",
        Prints(
            "1 carried 1 5\n2 waiting\n3 live\n4 waiting\n5 waiting\n6 waiting\nmaintenance 1\n",
        ),
    ),
];

/// The text of a journal.
fn text_of(alloc: Global, journal: &Journal) -> Result<String, AllocError> {
    let mut text = format!(in alloc; "bx-journal 2 rules {}\n{MORNING}", journal.rules)?;
    for _second in 1..journal.moment {
        text.push_str("tick\n")?;
    }
    text.push_str(journal.lines)?;
    Ok(text)
}

#[test]
fn days_that_lose_a_channel(rt: HostRuntime) -> Result<(), Fail> {
    let folder = folder(&rt)?;
    let path = format!(in rt.alloc(); "{folder}/lost.txt")?;
    fs::write(&rt, path.as_str(), PLAN)?;
    for journal in &JOURNALS {
        let path = format!(in rt.alloc(); "{folder}/{}", journal.name)?;
        let text = text_of(rt.alloc(), journal)?;
        fs::write(&rt, path.as_str(), text.as_str())?;
    }
    assert_eq!(rt; first_wrong(&rt, &folder, &CASES)?, None);
    fs::remove_dir_all(&rt, folder.as_str())?;
    Ok(())
}

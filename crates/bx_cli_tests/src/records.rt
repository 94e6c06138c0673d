//! Records of days by their journals: what is printed, and the bookings that are read back from it.

use crate::file_commands::{Case, first_wrong};
use crate::files::{folder, parted, placed};
use crate::program::Answer::{Fails, Misused, Prints};
use crate::program::{is_done, is_prefix_written, run};
use std::alloc::{AllocError, Global};
use std::fs;
use std::test::Fail;

/// A journal of the plan in `one.txt`, which a crash cut.
const TORN: &str =
    "bx-journal 1\nplan 2115e49ff6c2d6cbbe45cbc298589d645d156451f70f44ccb653b62c10c98e95\ntick\nheard 0";

/// Plans, and journals of them.
static FILES: [(&str, &str); 11] = [
    (
        "every.txt",
        "bx-plan 3\nchannels 1 2 3\nbookings 7\n0 10 5 101 1 free out\n10 12 4 102 1 free out\n0 60 7 103 2 free out\n0 20 6 104 3 free out\n5 15 1 105 - free in\n40 100 3 106 3 free out\n21 100 3 107 1 free out\nprices 1\n10 1\ntotal 28\nend\n",
    ),
    (
        "spring.txt",
        "bx-plan 3\nchannels 31\nbookings 2\n5400 9000 5 1234 31 free out\n9000 82800 5 1234 31 free out\nprices 0\ntotal 10\nend\n",
    ),
    (
        "autumn.txt",
        "bx-plan 3\nchannels 31\nbookings 2\n9000 12600 5 1234 31 free out\n12600 90000 5 1234 31 free out\nprices 0\ntotal 10\nend\n",
    ),
    (
        "fold.txt",
        "bx-plan 3\nchannels 31\nbookings 1\n0 12600 5 1234 31 free out\nprices 0\ntotal 5\nend\n",
    ),
    (
        "long.txt",
        "bx-plan 3\nchannels 31\nbookings 1\n0 200000 5 1234 31 free out\nprices 0\ntotal 5\nend\n",
    ),
    ("empty.journal", ""),
    (
        "every.journal",
        "bx-journal 1\nplan fbd5c2d6570b0bd4a3a7fb7c90c07ea1ca48af10a72173bcc8a4df631c30ae84\ntick\nheard 0802800107\nheard 0802800307\nheard 080280045A\ntick\ntick\ntick\ntick\ntick\ntick\ntick\ntick\ntick\ntick\ntick\ntick\ntick\ntick\ntick\ntick\ntick\ntick\ntick\nheard 080280014D\ntick\ntick\n",
    ),
    ("torn.journal", TORN),
    (
        "brief.journal",
        "bx-journal 1\nplan 2115e49ff6c2d6cbbe45cbc298589d645d156451f70f44ccb653b62c10c98e95\ntick\nheard 0802800107\nheard 080280014D\n",
    ),
    (
        "wrong.journal",
        "bx-journal 1\nplan 2115e49ff6c2d6cbbe45cbc298589d645d156451f70f44ccb653b62c10c98e95\ntick\ndown \n",
    ),
    (
        "other.journal",
        "bx-journal 1\nplan 3115e49ff6c2d6cbbe45cbc298589d645d156451f70f44ccb653b62c10c98e95\ntick\n",
    ),
];

/// The folder of the cases, with these files.
pub(crate) fn folder_of_records(rt: &HostRuntime) -> Result<String, Fail> {
    let folder = folder(rt)?;
    for (name, text) in &FILES {
        let path = format!(in rt.alloc(); "{folder}/{name}")?;
        fs::write(rt, path.as_str(), *text)?;
    }
    Ok(folder)
}

/// A day with its name: the words, the records, and the line of totals.
struct Recorded {
    name: &'static str,
    words: &'static str,
    records: &'static str,
    totals: &'static str,
}

static DAYS: [Recorded; 10] = [
    Recorded {
        name: "every outcome",
        words: "records @every.txt @every.journal",
        records: "row,direction,number,channel,start,end,pay,outcome,from,until,seconds\n1,out,101,1,0,10,5,carried,1,10,9\n2,out,102,1,10,12,4,missed,,,\n3,out,103,2,0,60,7,live,1,,\n4,out,104,3,0,20,6,unanswered,,,\n5,in,105,,5,15,1,refused,,,\n6,out,106,3,40,100,3,waiting,,,\n7,out,107,1,21,100,3,live,,,\n",
        totals: "carried 1 of 6 accepted, paid 5 of 28, 9 of 231 seconds, 1 short\n",
    },
    Recorded {
        name: "every outcome in summer time",
        words: "records @every.txt @every.journal --date 2026-03-30 --zone CET-1CEST,M3.5.0,M10.5.0/3",
        records: "row,direction,number,channel,start,end,pay,outcome,from,until,seconds\n1,out,101,1,2026-03-30T00:00:00+02:00,2026-03-30T00:00:10+02:00,5,carried,2026-03-30T00:00:01+02:00,2026-03-30T00:00:10+02:00,9\n2,out,102,1,2026-03-30T00:00:10+02:00,2026-03-30T00:00:12+02:00,4,missed,,,\n3,out,103,2,2026-03-30T00:00:00+02:00,2026-03-30T00:01:00+02:00,7,live,2026-03-30T00:00:01+02:00,,\n4,out,104,3,2026-03-30T00:00:00+02:00,2026-03-30T00:00:20+02:00,6,unanswered,,,\n5,in,105,,2026-03-30T00:00:05+02:00,2026-03-30T00:00:15+02:00,1,refused,,,\n6,out,106,3,2026-03-30T00:00:40+02:00,2026-03-30T00:01:40+02:00,3,waiting,,,\n7,out,107,1,2026-03-30T00:00:21+02:00,2026-03-30T00:01:40+02:00,3,live,,,\n",
        totals: "carried 1 of 6 accepted, paid 5 of 28, 9 of 231 seconds, 1 short\n",
    },
    Recorded {
        name: "a zone of minutes",
        words: "records @one.txt @empty.journal --date 2026-01-05 --zone NPT-5:45",
        records: "row,direction,number,channel,start,end,pay,outcome,from,until,seconds\n1,out,1234,1,2026-01-05T00:00:00+05:45,2026-01-05T00:01:00+05:45,5,waiting,,,\n",
        totals: "carried 0 of 1 accepted, paid 0 of 5, 0 of 60 seconds, 0 short\n",
    },
    Recorded {
        name: "UTC",
        words: "records @one.txt @torn.journal --date 2026-01-05",
        records: "row,direction,number,channel,start,end,pay,outcome,from,until,seconds\n1,out,1234,1,2026-01-05T00:00:00+00:00,2026-01-05T00:01:00+00:00,5,live,,,\n",
        totals: "carried 0 of 1 accepted, paid 0 of 5, 0 of 60 seconds, 0 short\n",
    },
    Recorded {
        name: "a day of 23 hours",
        words: "records @spring.txt @empty.journal --date 2026-03-29 --zone CET-1CEST,M3.5.0,M10.5.0/3",
        records: "row,direction,number,channel,start,end,pay,outcome,from,until,seconds\n1,out,1234,31,2026-03-29T01:30:00+01:00,2026-03-29T03:30:00+02:00,5,waiting,,,\n2,out,1234,31,2026-03-29T03:30:00+02:00,2026-03-30T00:00:00+02:00,5,waiting,,,\n",
        totals: "carried 0 of 2 accepted, paid 0 of 10, 0 of 77400 seconds, 0 short\n",
    },
    Recorded {
        name: "a day of 25 hours, with two rows an hour apart in the fold",
        words: "records @autumn.txt @empty.journal --date 2026-10-25 --zone CET-1CEST,M3.5.0,M10.5.0/3",
        records: "row,direction,number,channel,start,end,pay,outcome,from,until,seconds\n1,out,1234,31,2026-10-25T02:30:00+02:00,2026-10-25T02:30:00+01:00,5,waiting,,,\n2,out,1234,31,2026-10-25T02:30:00+01:00,2026-10-26T00:00:00+01:00,5,waiting,,,\n",
        totals: "carried 0 of 2 accepted, paid 0 of 10, 0 of 81000 seconds, 0 short\n",
    },
    Recorded {
        name: "a call of no seconds",
        words: "records @one.txt @brief.journal",
        records: "row,direction,number,channel,start,end,pay,outcome,from,until,seconds\n1,out,1234,1,0,60,5,carried,1,1,0\n",
        totals: "carried 0 of 1 accepted, paid 0 of 5, 0 of 60 seconds, 0 short\n",
    },
    Recorded {
        name: "no bookings",
        words: "records @none.txt @empty.journal",
        records: "row,direction,number,channel,start,end,pay,outcome,from,until,seconds\n",
        totals: "carried 0 of 0 accepted, paid 0 of 0, 0 of 0 seconds, 0 short\n",
    },
    Recorded {
        name: "no bookings of a day that is named",
        words: "records @none.txt @empty.journal --date 2026-01-05",
        records: "row,direction,number,channel,start,end,pay,outcome,from,until,seconds\n",
        totals: "carried 0 of 0 accepted, paid 0 of 0, 0 of 0 seconds, 0 short\n",
    },
    Recorded {
        name: "quiet",
        words: "records @one.txt @torn.journal --quiet",
        records: "row,direction,number,channel,start,end,pay,outcome,from,until,seconds\n1,out,1234,1,0,60,5,live,,,\n",
        totals: "",
    },
];

/// Whether the words print just these records and totals.
fn is_recorded(
    rt: &HostRuntime,
    folder: &str,
    words: &str,
    records: &str,
    totals: &str,
) -> Result<bool, Fail> {
    let words = placed(rt.alloc(), words, folder)?;
    let parts = parted(rt.alloc(), &words)?;
    let done = run(rt, &parts, "");
    Ok(
        done.status == 0
            && done.output.as_slice() == records.as_bytes()
            && done.errors.as_slice() == totals.as_bytes(),
    )
}

/// The name of the first day whose records are others.
fn first_wrong_day(rt: &HostRuntime, folder: &str) -> Result<Option<&'static str>, Fail> {
    for day in &DAYS {
        if !is_recorded(rt, folder, day.words, day.records, day.totals)? {
            return Ok(Some(day.name));
        }
    }
    Ok(None)
}

#[test]
fn records_of_days(rt: HostRuntime) -> Result<(), Fail> {
    let folder = folder_of_records(&rt)?;
    assert_eq!(rt; first_wrong_day(&rt, &folder)?, None);
    fs::remove_dir_all(&rt, folder.as_str())?;
    Ok(())
}

static REFUSALS: [Case; 16] = [
    (
        "records @one.txt @other.journal",
        Fails("bx: J2 OtherPlan\n"),
    ),
    (
        "records @spring.txt @torn.journal",
        Fails("bx: J2 OtherPlan\n"),
    ),
    (
        "records @one.txt @wrong.journal",
        Fails("bx: J1 BadLine 4\n"),
    ),
    ("records @one.txt @one.csv", Fails("bx: J1 BadLine 1\n")),
    ("records @one.txt @gone", Fails("bx: F1 CannotRead @gone\n")),
    (
        "records @gone @wrong.journal",
        Fails("bx: F1 CannotRead @gone\n"),
    ),
    ("records @unproved.txt @gone", Fails("bx: C7 NotProved 5\n")),
    ("records @short.txt @gone", Fails("bx: P1 BadLine 3\n")),
    (
        "records @gone @gone --date 2026-02-29",
        Fails("bx: A1 BadDate\n"),
    ),
    (
        "records @gone @gone --date 2026-01-05 --zone x",
        Fails("bx: A2 BadZone\n"),
    ),
    (
        "records @gone @gone --date 9999-12-31",
        Fails("bx: A3 OutOfRange\n"),
    ),
    ("records @one.txt", Misused),
    ("records - -", Misused),
    ("records @one.txt @torn.journal --zone UTC0", Misused),
    (
        "records @one.txt @torn.journal --capture @day.pcap",
        Misused,
    ),
    (
        "records @long.txt @empty.journal --date 9999-12-29",
        Fails("bx: A3 OutOfRange\n"),
    ),
];

#[test]
fn records_that_are_refused(rt: HostRuntime) -> Result<(), Fail> {
    let folder = folder_of_records(&rt)?;
    assert_eq!(rt; first_wrong(&rt, &folder, &REFUSALS)?, None);
    fs::remove_dir_all(&rt, folder.as_str())?;
    Ok(())
}

/// Plans, the words of their days, and their channels.
static PLANS: [(&str, &str, &str); 4] = [
    ("every.txt", "--date 2026-03-30", "1-3"),
    (
        "every.txt",
        "--date 2026-03-30 --zone CET-1CEST,M3.5.0,M10.5.0/3",
        "1-3",
    ),
    (
        "spring.txt",
        "--date 2026-03-29 --zone CET-1CEST,M3.5.0,M10.5.0/3",
        "31",
    ),
    (
        "autumn.txt",
        "--date 2026-10-25 --zone CET-1CEST,M3.5.0,M10.5.0/3",
        "31",
    ),
];

/// The booking of a record, as a file of bookings has it.
fn booking_of(alloc: Global, record: &str) -> Result<String, AllocError> {
    let mut fields = Vec::new(alloc);
    for field in record.split(',') {
        fields.push(field)?;
    }
    match fields.as_slice() {
        [_, direction, number, _, start, end, pay, ..] => {
            format!(in alloc; "{start},{end},{number},{pay},no,{direction}\n")
        }
        _ => String::from_str(alloc, "no record\n"),
    }
}

/// The bookings of records.
fn bookings_of(alloc: Global, records: &str) -> Result<String, AllocError> {
    let mut bookings = String::from_str(alloc, "start,end,number,pay,must,direction\n")?;
    for record in records.lines().skip(1) {
        bookings.push_str(&booking_of(alloc, record)?)?;
    }
    Ok(bookings)
}

/// Whether the bookings of the plan's records are those of the plan again.
fn is_read_back(
    rt: &HostRuntime,
    folder: &str,
    name: &str,
    day: &str,
    channels: &str,
) -> Result<bool, Fail> {
    let words = format!(in rt.alloc(); "records @{name} @empty.journal {day}")?;
    let words = placed(rt.alloc(), &words, folder)?;
    let done = run(rt, &parted(rt.alloc(), &words)?, "");
    let records = String::from_utf8(done.output)?;
    let path = format!(in rt.alloc(); "{folder}/back.csv")?;
    fs::write(rt, path.as_str(), bookings_of(rt.alloc(), &records)?)?;
    let words = format!(in rt.alloc(); "plan {day} --channels {channels} @back.csv")?;
    let words = placed(rt.alloc(), &words, folder)?;
    let done = run(rt, &parted(rt.alloc(), &words)?, "");
    let path = format!(in rt.alloc(); "{folder}/{name}")?;
    let plan = fs::read(rt, path.as_str())?;
    Ok(done.status == 0 && done.output.as_slice() == plan.as_slice())
}

#[test]
fn bookings_read_back(rt: HostRuntime) -> Result<(), Fail> {
    let folder = folder_of_records(&rt)?;
    for (name, day, channels) in &PLANS {
        assert!(rt; is_read_back(&rt, &folder, name, day, channels)?, "{day}");
    }
    fs::remove_dir_all(&rt, folder.as_str())?;
    Ok(())
}

/// The journal of a call over the end of summer time: Active from the first second until the end of its booking.
fn journal_over_the_fold(alloc: Global) -> Result<Vec<u8>, AllocError> {
    let mut journal = Vec::new(alloc);
    journal.extend_from_slice(
        b"bx-journal 1\nplan f664d843345de1d9b45ab5ae6ba5f27086fe3776f9cdfd18765c5ea38e0c776f\ntick\nheard 0802800107\n",
    )?;
    for _tick in 1..12_601u32 {
        journal.extend_from_slice(b"tick\n")?;
    }
    journal.extend_from_slice(b"heard 080280014D\n")?;
    Ok(journal)
}

#[test]
fn a_call_over_the_fold(rt: HostRuntime) -> Result<(), Fail> {
    let folder = folder_of_records(&rt)?;
    let path = format!(in rt.alloc(); "{folder}/fold.journal")?;
    fs::write(&rt, path.as_str(), journal_over_the_fold(rt.alloc())?)?;
    let words =
        "records @fold.txt @fold.journal --date 2026-10-25 --zone CET-1CEST,M3.5.0,M10.5.0/3";
    let records =
        "row,direction,number,channel,start,end,pay,outcome,from,until,seconds\n1,out,1234,31,2026-10-25T00:00:00+02:00,2026-10-25T02:30:00+01:00,5,carried,2026-10-25T00:00:01+02:00,2026-10-25T02:30:00+01:00,12599\n";
    let totals = "carried 1 of 1 accepted, paid 5 of 5, 12599 of 12600 seconds, 1 short\n";
    assert!(rt;
        is_recorded(&rt, &folder, words, records, totals)?,
        "local times"
    );
    fs::remove_dir_all(&rt, folder.as_str())?;
    Ok(())
}

/// How many octets standard output takes.
static TAKEN: [u32; 6] = [0, 1, 69, 70, 96, 1000];

#[test]
fn inputs_and_outputs_of_records(rt: HostRuntime) -> Result<(), Fail> {
    let folder = folder_of_records(&rt)?;
    let words = placed(rt.alloc(), "records @one.txt - --quiet", &folder)?;
    let text =
        "row,direction,number,channel,start,end,pay,outcome,from,until,seconds\n1,out,1234,1,0,60,5,live,,,\n";
    let done = run(&rt, &parted(rt.alloc(), &words)?, TORN);
    assert!(rt; is_done(&done, Prints(text).expected()), "standard input");
    let words = placed(
        rt.alloc(),
        "records @one.txt @torn.journal --quiet",
        &folder,
    )?;
    let parts = parted(rt.alloc(), &words)?;
    for taken in TAKEN {
        assert!(rt;
            is_prefix_written(&rt, &parts, text, taken),
            "output {taken}"
        );
    }
    fs::remove_dir_all(&rt, folder.as_str())?;
    Ok(())
}

//! Records that days of files write at their end.

use crate::files::{does, parted, placed};
use crate::program::{Expected, is_prefix_written};
use crate::records::folder_of_records;
use std::fs;
use std::test::Fail;

/// A day with its name: the words, what is printed, and the records in `day.csv`.
struct Recorded {
    name: &'static str,
    words: &'static str,
    printed: Expected<'static>,
    records: &'static str,
}

/// What is printed of a day whose one call is carried.
const CARRIED: Expected<'static> = (0, "1 carried 1 60\nmaintenance none\n", "");

static DAYS: [Recorded; 6] = [
    Recorded {
        name: "local times over the end of summer time",
        words: "day @fold.txt @answer.csv --records @day.csv --date 2026-10-25 --zone CET-1CEST,M3.5.0,M10.5.0/3",
        printed: (0, "1 carried 1 12600\nmaintenance none\n", ""),
        records: "row,direction,number,channel,start,end,pay,outcome,from,until,seconds\n1,out,1234,31,2026-10-25T00:00:00+02:00,2026-10-25T02:30:00+01:00,5,carried,2026-10-25T00:00:01+02:00,2026-10-25T02:30:00+01:00,12599\n",
    },
    Recorded {
        name: "every kind of row, in a file that had more",
        words: "day @two.txt @calls.csv --records @day.csv --quiet",
        printed: (
            0,
            "1 unanswered\n2 carried 13 20\n3 refused\nmaintenance none\n",
            "",
        ),
        records: "row,direction,number,channel,start,end,pay,outcome,from,until,seconds\n1,out,1234,1,0,60,5,unanswered,,,\n2,in,1234,2,10,20,4,carried,13,20,7\n3,out,77,,15,20,1,refused,,,\n",
    },
    Recorded {
        name: "seconds",
        words: "day @one.txt @answer.csv --records @day.csv",
        printed: CARRIED,
        records: "row,direction,number,channel,start,end,pay,outcome,from,until,seconds\n1,out,1234,1,0,60,5,carried,1,60,59\n",
    },
    Recorded {
        name: "a day that is not over",
        words: "day @one.txt @answer.csv --records @day.csv --turns 1",
        printed: (0, "1 live\nmaintenance none\n", ""),
        records: "row,direction,number,channel,start,end,pay,outcome,from,until,seconds\n1,out,1234,1,0,60,5,live,1,,\n",
    },
    Recorded {
        name: "with a capture",
        words: "day @one.txt @answer.csv --records @day.csv --capture @day.pcap --date 2026-01-05",
        printed: CARRIED,
        records: "row,direction,number,channel,start,end,pay,outcome,from,until,seconds\n1,out,1234,1,2026-01-05T00:00:00+00:00,2026-01-05T00:01:00+00:00,5,carried,2026-01-05T00:00:01+00:00,2026-01-05T00:01:00+00:00,59\n",
    },
    Recorded {
        name: "a full disk, which leaves the records before",
        words: "day @one.txt @answer.csv --records /dev/full",
        printed: (
            1,
            "1 carried 1 60\nmaintenance none\n",
            "bx: F5 CannotWrite /dev/full\n",
        ),
        records: "row,direction,number,channel,start,end,pay,outcome,from,until,seconds\n1,out,1234,1,2026-01-05T00:00:00+00:00,2026-01-05T00:01:00+00:00,5,carried,2026-01-05T00:00:01+00:00,2026-01-05T00:01:00+00:00,59\n",
    },
];

/// Whether `day.csv` has just this text.
fn holds(rt: &HostRuntime, folder: &str, text: &str) -> Result<bool, Fail> {
    let path = format!(in rt.alloc(); "{folder}/day.csv")?;
    let octets = fs::read(rt, path.as_str())?;
    Ok(octets.as_slice() == text.as_bytes())
}

/// The name of the first day that is told or recorded otherwise.
fn first_wrong_day(rt: &HostRuntime, folder: &str) -> Result<Option<&'static str>, Fail> {
    for day in &DAYS {
        if !does(rt, folder, day.words, day.printed)? || !holds(rt, folder, day.records)? {
            return Ok(Some(day.name));
        }
    }
    Ok(None)
}

#[test]
fn days_with_records(rt: HostRuntime) -> Result<(), Fail> {
    let folder = folder_of_records(&rt)?;
    assert_eq!(rt; first_wrong_day(&rt, &folder)?, None);
    fs::remove_dir_all(&rt, folder.as_str())?;
    Ok(())
}

/// How many octets standard output takes.
static TAKEN: [u32; 3] = [0, 5, 1000];

#[test]
fn records_of_days_with_failing_outputs(rt: HostRuntime) -> Result<(), Fail> {
    let folder = folder_of_records(&rt)?;
    let words = placed(
        rt.alloc(),
        "day @one.txt @answer.csv --records @day.csv",
        &folder,
    )?;
    let parts = parted(rt.alloc(), &words)?;
    let text = "1 carried 1 60\nmaintenance none\n";
    let records =
        "row,direction,number,channel,start,end,pay,outcome,from,until,seconds\n1,out,1234,1,0,60,5,carried,1,60,59\n";
    for taken in TAKEN {
        assert!(rt;
            is_prefix_written(&rt, &parts, text, taken),
            "output {taken}"
        );
        assert!(rt; holds(&rt, &folder, records)?, "records {taken}");
    }
    fs::remove_dir_all(&rt, folder.as_str())?;
    Ok(())
}

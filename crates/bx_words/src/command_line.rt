//! The command line as `clap` knows it.

ghost use Rattle.std.specs.Prelude.{◌≡◌, IfSome};
ghost use Rattle.bx_words.specs.Inside.{command_word};

use crate::arguments::{Argument, Day, Journal, arg_of};
use clap::Command;
use std::alloc::{AllocError, Global};

const VERSION: &str = "0.2.0";

const ABOUT: &str =
    "Booked calls on one ISDN primary rate interface: plans that are proved best, and days that set up and clear their calls by Q.931 messages.

Without words, reads a plan text on standard input, checks it against the bookings and channels that it states itself, and prints `proved ` and the total.";

const USAGE: &str = "bx < PLAN
       bx <COMMAND>";

const AFTER: &str = "Examples:
  bx plan --date 2026-03-29 --zone CET-1CEST,M3.5.0,M10.5.0/3 day.csv > plan.txt
  bx check --date 2026-03-29 --zone CET-1CEST,M3.5.0,M10.5.0/3 day.csv plan.txt
  bx < plan.txt
  bx amend --date 2026-03-29 --zone CET-1CEST,M3.5.0,M10.5.0/3 plan.txt more.csv > amended.txt
  bx capacity --date 2026-03-29 --zone CET-1CEST,M3.5.0,M10.5.0/3 day.csv
  bx explain plan.txt 2
  bx quote plan.txt 28800 30600
  bx chart plan.txt > plan.svg
  bx day plan.txt script.csv --capture day.pcap
  bx serve plan.txt --port 9931
  bx serve plan.txt --live --line 9931:9932 --date 2026-03-29 --zone CET-1CEST,M3.5.0,M10.5.0/3 --journal day.journal
  bx serve plan.txt --live --line 9931:9932 --date 2026-03-29 --zone CET-1CEST,M3.5.0,M10.5.0/3 --journal day.journal --office office.sock
  bx far script.csv --port 9931
  bx far script.csv --line 9932:9931 --date 2026-03-29 --zone CET-1CEST,M3.5.0,M10.5.0/3
  bx audit plan.txt day.journal
  bx records plan.txt day.journal --date 2026-03-29 --zone CET-1CEST,M3.5.0,M10.5.0/3 > records.csv
  bx sold plan.txt day.journal > last.txt
  bx chart plan.txt --journal day.journal > day.svg
  bx decode 080280015A08028091

Status: 0 done, 1 refused (one line on standard error says why; `bx help faults` says what each means), 2 wrong words, 3 a live day that is refused by what a start again cannot mend.";

/// The names of the commands.
#[derive(Clone, Copy)]
pub enum Name {
    Plan,
    Check,
    Amend,
    Capacity,
    Explain,
    Quote,
    Chart,
    Day,
    Serve,
    Far,
    Audit,
    Records,
    Sold,
    Decode,
}

/// A name as it is given.
fn word_of<'a>(name: Name) -> &'a str
    ensures { result.now ≡ command_word name }
{
    match name {
        Name::Plan => "plan",
        Name::Check => "check",
        Name::Amend => "amend",
        Name::Capacity => "capacity",
        Name::Explain => "explain",
        Name::Quote => "quote",
        Name::Chart => "chart",
        Name::Day => "day",
        Name::Serve => "serve",
        Name::Far => "far",
        Name::Audit => "audit",
        Name::Records => "records",
        Name::Sold => "sold",
        Name::Decode => "decode",
    }
}

/// A command: its name, its help, and its arguments in the order of the help.
struct Words {
    name: Name,
    about: &'static str,
    arguments: &'static [Argument],
}

/// The commands: those on bookings and plans, then those on days and their messages.
static COMMANDS: [Words; 14] = [
    Words {
        name: Name::Plan,
        about: "Print the best plan of a day's bookings",
        arguments: &[
            Argument::Date(Day::Bookings),
            Argument::Zone,
            Argument::Channels,
            Argument::Bookings,
        ],
    },
    Words {
        name: Name::Check,
        about: "Check a plan against a day's bookings, and print `proved ` and the total",
        arguments: &[
            Argument::Date(Day::Bookings),
            Argument::Zone,
            Argument::Channels,
            Argument::Bookings,
            Argument::Plan,
        ],
    },
    Words {
        name: Name::Amend,
        about: "Print the best plan that holds all that a plan accepts, for its bookings and more of the day",
        arguments: &[
            Argument::Date(Day::Bookings),
            Argument::Zone,
            Argument::Plan,
            Argument::Bookings,
        ],
    },
    Words {
        name: Name::Capacity,
        about: "Print what 0 to 30 channels would earn with a day's bookings, and what one more would add to each",
        arguments: &[
            Argument::Date(Day::Bookings),
            Argument::Zone,
            Argument::Bookings,
        ],
    },
    Words {
        name: Name::Explain,
        about: "Print what each booking that a proved plan refuses pays, and what its seconds cost; or what one of them has to pay to be taken",
        arguments: &[Argument::Plan, Argument::Row],
    },
    Words {
        name: Name::Quote,
        about: "Print what a further booking has to pay to be taken beside those of a proved plan",
        arguments: &[
            Argument::Plan,
            Argument::Start,
            Argument::End,
            Argument::Inward,
            Argument::Date(Day::Call),
            Argument::DayZone,
        ],
    },
    Words {
        name: Name::Chart,
        about: "Print a proved plan as a picture in SVG: what each channel carries, what is refused, and the prices; or its day as it went, by its journal",
        arguments: &[
            Argument::Plan,
            Argument::Journal(Journal::Drawn),
            Argument::Date(Day::Picture),
            Argument::DayZone,
        ],
    },
    Words {
        name: Name::Day,
        about: "Run both ends of a proved plan's day over one TCP connection to 127.0.0.1, and print what became of each booking; may run long",
        arguments: &[
            Argument::Plan,
            Argument::Script,
            Argument::Turns,
            Argument::Journal(Journal::New),
            Argument::Records,
            Argument::Capture,
            Argument::Date(Day::Seen),
            Argument::DayZone,
            Argument::Quiet,
        ],
    },
    Words {
        name: Name::Serve,
        about: "Run the exchange's end of a proved plan's day towards the first peer, or by the clock over a data link, and print what became of each booking; may wait and run long",
        arguments: &[
            Argument::Plan,
            Argument::Port,
            Argument::Socket,
            Argument::Live,
            Argument::ServedLine,
            Argument::Date(Day::Served),
            Argument::DayZone,
            Argument::Journal(Journal::Kept),
            Argument::Office,
            Argument::OfficePort,
            Argument::Origin,
            Argument::Counter,
            Argument::CounterPort,
            Argument::CounterOrigin,
            Argument::Rate,
            Argument::Pace,
            Argument::Turns,
            Argument::Records,
            Argument::Capture,
            Argument::Quiet,
        ],
    },
    Words {
        name: Name::Far,
        about: "Run the far end of a day by a script, towards an exchange that serves, or by the clock over a data link; may wait and run long",
        arguments: &[
            Argument::Script,
            Argument::Port,
            Argument::Socket,
            Argument::FarLine,
            Argument::Date(Day::Far),
            Argument::DayZone,
            Argument::FarPace,
            Argument::FarTurns,
            Argument::Capture,
            Argument::Quiet,
        ],
    },
    Words {
        name: Name::Audit,
        about: "Print what became of each booking of a proved plan by the journal of its day, and capture that day afterwards",
        arguments: &[
            Argument::Plan,
            Argument::Journal(Journal::File),
            Argument::Capture,
            Argument::Date(Day::Captured),
            Argument::DayZone,
        ],
    },
    Words {
        name: Name::Records,
        about: "Print the records of a proved plan's day by its journal, as CSV for bills and spreadsheets, and their totals",
        arguments: &[
            Argument::Plan,
            Argument::Journal(Journal::Read),
            Argument::Date(Day::Logged),
            Argument::DayZone,
            Argument::NoTotals,
        ],
    },
    Words {
        name: Name::Sold,
        about: "Print the last plan of a proved plan's day by its journal: its bookings, and after them those that were sold while it ran",
        arguments: &[Argument::Plan, Argument::Journal(Journal::Read)],
    },
    Words {
        name: Name::Decode,
        about: "Print the type, the reference and the elements of a Q.931 message",
        arguments: &[Argument::Octets],
    },
];

/// The name that is given so, where it is one.
pub(crate) fn name_of_word(word: &str) -> Option<Name>
    ensures { IfSome result (λ name. command_word name ≡ word.now) }
{
    for words in &COMMANDS {
        if word_of(words.name) == word {
            return Some(words.name);
        }
    }
    None
}

fn command_of<'a>(alloc: Global, words: &Words) -> Result<Command<'a>, AllocError> {
    let mut command = Command::new(alloc, word_of(words.name)).about(words.about);
    for argument in words.arguments {
        command = command.arg(arg_of(alloc, *argument)?)?;
    }
    Ok(command)
}

/// The program's name, help and version.
fn program<'a>(alloc: Global) -> Result<Command<'a>, AllocError> {
    Command::new(alloc, "bx")
        .no_binary_name(true)
        .override_usage(USAGE)
        .subcommand_required(true)
        .version(VERSION)
        .about(ABOUT)
        .after_help(AFTER)
        .bin_name("bx")
}

/// The program with this command.
fn with_command<'a>(
    alloc: Global,
    program: Command<'a>,
    words: &Words,
) -> Result<Command<'a>, AllocError> {
    program.subcommand(command_of(alloc, words)?)
}

/// The program with its commands.
pub(crate) fn program_of_words<'a>(alloc: Global) -> Result<Command<'a>, AllocError> {
    let mut program = program(alloc)?;
    for words in &COMMANDS {
        program = with_command(alloc, program, words)?;
    }
    Ok(program)
}

//! Commands with their words.

/// The day and the channels of a plan, as the words name them.
#[derive(Drop)]
pub struct Terms<'a> {
    pub date: &'a str,
    pub zone: &'a str,
    pub channels: Vec<u8>,
}

/// A call that is asked for, as the words name it.
#[derive(Clone, Copy)]
pub struct Call<'a> {
    pub start: &'a str,
    pub end: &'a str,
    pub inward: bool,
    /// The date and the zone of the day, where the start and the end are times.
    pub day: Option<(&'a str, &'a str)>,
}

/// A capture file that is to be written, as the words name it.
#[derive(Clone, Copy)]
pub struct CaptureWords<'a> {
    pub file: &'a str,
    /// The date and the zone of the day, where its time stamps are instants.
    pub day: Option<(&'a str, &'a str)>,
}

/// A file that the records of a day are to be written to, as the words name it.
#[derive(Clone, Copy)]
pub struct RecordsWords<'a> {
    pub file: &'a str,
    /// The date and the zone of the day, where moments are to be written as local times.
    pub day: Option<(&'a str, &'a str)>,
}

/// What is to be seen of a day while it runs.
#[derive(Clone, Copy)]
pub struct Sight<'a> {
    pub capture: Option<CaptureWords<'a>>,
    pub is_quiet: bool,
}

/// A command on files of bookings and plans, with its words.
#[derive(Drop)]
pub enum FileRequest<'a> {
    /// Print the best plan of the bookings in this file.
    Plan {
        terms: Terms<'a>,
        bookings: &'a str,
    },
    /// Check the plan in one file against the bookings in another.
    Check {
        terms: Terms<'a>,
        bookings: &'a str,
        plan: &'a str,
    },
    /// Print the best plan that holds all that the plan in one file accepts, for its bookings and those in another.
    Amend {
        date: &'a str,
        zone: &'a str,
        plan: &'a str,
        bookings: &'a str,
    },
    /// Print what 0 to 30 channels would earn with the bookings in this file.
    Capacity {
        date: &'a str,
        zone: &'a str,
        bookings: &'a str,
    },
    /// Print what each row that a plan refuses pays, and what its seconds cost; or what one row has to pay to be taken.
    Explain {
        plan: &'a str,
        row: Option<u16>,
    },
    /// Print what a further call has to pay to be taken beside those of a plan.
    Quote {
        plan: &'a str,
        call: Call<'a>,
    },
    /// Print a plan as a picture, of the day with this date and zone where one is named.
    Chart {
        plan: &'a str,
        day: Option<(&'a str, &'a str)>,
    },
}

/// Where an exchange or its booking office listens, or a far end connects.
#[derive(Clone, Copy)]
pub enum Place<'a> {
    /// A TCP port of 127.0.0.1.
    Port(u16),
    /// The Unix socket of this path.
    Socket(&'a str),
}

/// The far end of a day that is to be run.
#[derive(Clone, Copy)]
pub struct FarRequest<'a> {
    pub script: &'a str,
    pub place: Place<'a>,
    pub sight: Sight<'a>,
}

/// Who is at the other end of a day that is rehearsed.
#[derive(Clone, Copy)]
pub enum Peer<'a> {
    /// A far end of the same process, by the script of this name.
    Script(&'a str),
    /// The first that connects here.
    At(Place<'a>),
}

/// A plan's day that is to be run as fast as its peer goes.
#[derive(Clone, Copy)]
pub struct RehearsalRequest<'a> {
    pub plan: &'a str,
    pub peer: Peer<'a>,
    /// The file of its journal, where what happens is to be logged. It may not hold one.
    pub journal: Option<&'a str>,
    pub turns: Option<u32>,
    pub records: Option<RecordsWords<'a>>,
    pub sight: Sight<'a>,
}

/// The two UDP ports of 127.0.0.1 between which a data link goes.
#[derive(Clone, Copy)]
pub struct LinePorts {
    /// That of this end.
    pub here: u16,
    /// That of the other end.
    pub there: u16,
}

/// When a day is that goes by the clock.
#[derive(Clone, Copy)]
pub struct DayHours<'a> {
    /// The date and the zone of the day, whose midnight is its moment 0.
    pub date: &'a str,
    pub zone: &'a str,
    /// How many seconds of the day go by in one of the clock.
    pub pace: u32,
}

/// The far end of a day that is to be run by the clock, over a data link.
#[derive(Clone, Copy)]
pub struct FarLineRequest<'a> {
    pub script: &'a str,
    pub line: LinePorts,
    pub hours: DayHours<'a>,
    pub turns: Option<u32>,
    /// The file of its capture, where one is to be written.
    pub capture: Option<&'a str>,
    pub is_quiet: bool,
}

/// A plan's day that is to be run by the clock, over a data link.
#[derive(Clone, Copy)]
pub struct LiveRequest<'a> {
    pub plan: &'a str,
    pub line: LinePorts,
    pub hours: DayHours<'a>,
    /// The file of its journal, where one is kept.
    pub journal: Option<&'a str>,
    /// Where its booking office listens, where there is one. Nothing is sold outside the journal, so there is one only beside a journal.
    pub office: Option<Place<'a>>,
    /// The origin by which a proxy in front of the office is asked, as `https://office.example`, where there is one.
    pub origin: Option<&'a str>,
    /// Where the counter of the office listens, at which customers are let in, where there is one.
    pub counter: Option<Place<'a>>,
    /// The origin by which a proxy in front of the counter is asked, where there is one.
    pub counter_origin: Option<&'a str>,
    /// The least pay of each started minute of what the office sells, 1 to 1,000,000, where there is one.
    pub rate: Option<u32>,
    pub turns: Option<u32>,
    pub is_quiet: bool,
}

/// A day that is to be told by its journal.
#[derive(Clone, Copy)]
pub struct AuditRequest<'a> {
    pub plan: &'a str,
    pub journal: &'a str,
    pub capture: Option<CaptureWords<'a>>,
}

/// The records that are to be written of a day by its journal.
#[derive(Clone, Copy)]
pub struct RecordsRequest<'a> {
    pub plan: &'a str,
    pub journal: &'a str,
    /// The date and the zone of the day, where moments are to be written as local times.
    pub day: Option<(&'a str, &'a str)>,
    /// Without the totals.
    pub is_quiet: bool,
}

/// The last plan of a day that is to be written by its journal.
#[derive(Clone, Copy)]
pub struct SoldRequest<'a> {
    pub plan: &'a str,
    pub journal: &'a str,
}

/// A day that is to be drawn as a picture by its journal.
#[derive(Clone, Copy)]
pub struct DayChartRequest<'a> {
    pub plan: &'a str,
    pub journal: &'a str,
    /// The date and the zone of the day, where the picture is as long as it and shows its clock.
    pub day: Option<(&'a str, &'a str)>,
}

/// One command, with its words.
#[derive(Drop)]
pub enum Request<'a> {
    Files(FileRequest<'a>),
    Rehearsal(RehearsalRequest<'a>),
    Far(FarRequest<'a>),
    FarLine(FarLineRequest<'a>),
    Live(LiveRequest<'a>),
    Audit(AuditRequest<'a>),
    Records(RecordsRequest<'a>),
    Sold(SoldRequest<'a>),
    DayChart(DayChartRequest<'a>),
    /// Print what a message says.
    Decode { octets: &'a str },
}

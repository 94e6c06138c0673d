//! What a command that runs a day or tells of one opens: the plan, with the digest that ties a journal to it, the exchange and the far end at
//! their openings, how long the day is, the journal, of which each event happens, and what amends the plan is done again, as it is read, the
//! connection, the captured file and the moment that is shown.
#![tactic(auto)]

mod amending;
mod capturing;
mod causes;
mod datagrams;
mod fault;
mod following;
mod hours;
pub mod laws;
mod leaving;
mod line;
mod loopback;
mod openings;
mod paths;
mod plan_opening;
mod ports;
mod progress;
mod recording;
mod replaying;
mod selling;
mod sockets;
mod system;
mod tied;

pub use amending::{AmendmentFault, amend_again};
pub use capturing::{captured, file_of, first_of};
pub use causes::unheard;
pub use datagrams::Datagrams;
pub use fault::DayCommandFault;
pub use following::journal_read;
pub use hours::{Hours, hours_of};
pub use line::line_between;
pub use loopback::{accepted, connected, connected_ends};
pub use openings::{AFTER_THE_LAST, far_end_of, turns_of};
pub use paths::Paths;
pub use plan_opening::{DayOpening, Opening, day_opening, opening_of, tied_opening};
pub use ports::Ports;
pub use progress::Shown;
pub use recording::{
    RecordsFile, clock_of, kept, record, records_clock_of, records_file_of, unrecorded,
};
pub use replaying::{Replayed, day_turns, replay_journal};
pub use selling::Selling;
pub use sockets::{accepted_at, connected_at, listener_at};
pub use system::System;
pub use tied::{TiedPlan, tied_named, tied_plan};

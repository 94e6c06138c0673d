//! A live day with a booking office beside it, and what the office answers: texts of the day, a pure function each of the exchange.
#![tactic(auto)]

mod changes;
mod counter;
mod counting;
mod desk;
mod drawing;
mod fault;
mod free_starts;
mod free_times;
mod health;
mod last_plans;
pub mod laws;
mod ledger;
mod maintenance;
mod metrics;
mod promised;
mod quote_lines;
mod quoting;
mod serving;
mod sold;
mod tallies;
mod tariff;
mod texts;
mod wish;
mod wishing;
mod words;
mod world;

pub use changes::changed_text;
pub use desk::{Opened, Written, answer_of};
pub use drawing::chart_text;
pub use fault::NoAnswer;
pub use free_times::free_text;
pub use health::{Readiness, health_text, ready_now, ready_text};
pub use last_plans::{last_plan, plan_text};
pub use ledger::Ledger;
pub use metrics::{Figures, metrics_text};
pub use promised::promised_plan;
pub use quoting::{call_of, quote_text};
pub use sold::sold_text;
pub use tariff::Terms;
pub use texts::{outcomes_text, records_text};
pub use wish::Wish;
pub use wishing::wish_of;
pub use world::{Office, OfficeWorld};

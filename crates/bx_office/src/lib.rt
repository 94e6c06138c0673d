//! The office of a live day: which requests are let through, and a client's connection.
#![tactic(auto)]

mod client;
mod early;
mod gate;
mod heads;
mod hosts;
mod keys;
mod origins;
mod pages;
mod refusals;
mod reply;
mod rows;
mod targets;

pub use client::{Client, Stage};
pub use early::{Eve, at_once};
pub use gate::{Address, Place, Refusal, Request, Route, Side, let_through};
pub use keys::{Key, read_key};
pub use origins::Origin;
pub use pages::page;
pub use refusals::{crowded, too_slow};
pub use reply::{Allowed, Kind, Reply, Status};

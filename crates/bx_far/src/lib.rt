//! The far end of the interface: the user side, which does with calls what a script says, and begins calls
//! itself.
#![tactic(auto)]

mod begun_tick;
mod end;
mod far;
mod fault;
pub mod laws;
mod live_receiving;
mod outages;
mod receiving;
mod row;
mod script;
mod slots;
mod text;
mod ticking;

pub use far::Far;
pub use fault::ScriptFault;
pub use row::ScriptRow;
pub use script::Script;

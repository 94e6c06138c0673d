//! The call tables of both ends of an interface: what a call does with a message, and with a second that
//! goes by (ITU-T Q.931, 5.1 to 5.3 and 5.8). Nothing here takes memory or refuses.
#![tactic(auto)]

mod bearer;
mod call_state;
mod every_state;
mod hearing;
mod net_call;
mod net_messages;
mod net_seconds;
mod net_state;
mod outgoing;
mod sending;
pub mod shifting;
pub mod timers;
mod times;
mod transition;
mod unknown_reference;
mod user_call;
mod user_messages;
mod user_seconds;
mod user_state;

pub use bearer::bearer_fault;
pub use bx_events::Rules;
pub use call_state::CallState;
pub use net_call::NetCall;
pub use net_state::{NetOrigin, NetState, Offer};
pub use sending::spell;
pub use times::Times;
pub use transition::{Next, Transition};
pub use unknown_reference::{Side, refuse, unknown};
pub use user_call::UserCall;
pub use user_state::{Policy, UserOrigin, UserState};

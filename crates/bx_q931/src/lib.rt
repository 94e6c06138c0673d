//! Messages of ITU-T Q.931 as octets: reading what comes, and writing what is sent. Nothing here takes
//! memory.
#![tactic(auto)]

pub mod cause;
mod channel_field;
mod elements;
mod encoding;
mod fault;
mod items;
mod kind;
pub mod laws;
mod message;
mod out;
mod reading;
mod reference;
mod restart;

pub use channel_field::ChannelField;
pub use elements::{Element, Elements};
pub use encoding::{Octets, copied, encode};
pub use fault::MessageFault;
pub use kind::Kind;
pub use message::{
    BEARER_CAPABILITY, CALL_STATE, CALLED_PARTY_NUMBER, CAUSE, CHANNEL_IDENTIFICATION, Message,
    SENDING_COMPLETE,
};
pub use out::Out;
pub use reading::{MAX_MESSAGE, read};
pub use reference::Reference;
pub use restart::{
    RESTART, RESTART_ACKNOWLEDGE, RESTART_INDICATOR, Restart, acknowledge_restart,
    restarts_interface,
};

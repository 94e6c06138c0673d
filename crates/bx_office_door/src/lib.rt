//! The door of the booking office: its sockets, served beside the wire of a live day.
#![tactic(auto)]

mod customer;
mod door;
mod eves;
mod guest;
mod listens;
mod shared;
mod stream;
mod wire;

pub use customer::Customer;
pub use door::{Door, Entrance};
pub use guest::Guest;
pub use listens::Listens;
pub use shared::{Lends, SharedDoor};
pub use stream::{Came, Listening, Stream, Unmet};
pub use wire::OfficeWire;

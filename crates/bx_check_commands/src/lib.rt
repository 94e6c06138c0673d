//! What the commands do over readers and writers, without words and sockets: the checks of a plan's text, also of an input that has
//! a name, and the decoding of a message.
#![tactic(auto)]

mod causes;
mod checking;
mod decoding;
mod fault;
mod inputs;
mod message_lines;
mod reading_files;

pub use causes::tell_cause;
pub use checking::{check_against, check_self, plan_from, proved_plan};
pub use decoding::decode;
pub use fault::CommandFault;
pub use inputs::{FilesAndInput, Inputs, plan_named, proved_named};
pub use reading_files::open;

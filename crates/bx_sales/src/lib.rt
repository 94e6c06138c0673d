//! Bookings that are sold, given up and changed while the day runs, first come, first served.
#![tactic(auto)]

mod changing;
mod given_up;
mod going_on;
pub mod laws;
mod leaving;
mod left;
mod listing;
mod recolouring;
mod row_line;
mod selling;
mod selling_all;
mod tag;

pub use changing::{NoChange, cancel, change};
pub use given_up::{none_given_up, note, note_event};
pub use leaving::{delay, give_up, is_any_stranded, is_stranded, leave, next_start};
pub use left::channels_left;
pub use recolouring::recolour;
pub use row_line::{cancel_line, change_line, out_line};
pub use selling::{NoSale, sell};
pub use selling_all::sell_all;
pub use tag::{Tag, behind_tag, sale_line, tag_of};

//! What the texts of a plan, a day and a script have in common: lines, decimals and blocks of octets that are written, and
//! records of fields, with rows under a header, that are read.
#![tactic(auto)]

mod appending;
mod block;
mod digits;
mod lines;
mod records;
mod rows;
mod rows_fault;

pub use appending::append_decimal;
pub use block::Block;
pub use digits::{all_digits, digits_value};
pub use lines::{Line, add, add_decimal, add_members, append, named_line};
pub use records::{ReadRefused, field, is_named, read_next, records_of};
pub use rows::{RowForm, read_records};
pub use rows_fault::RowsFault;

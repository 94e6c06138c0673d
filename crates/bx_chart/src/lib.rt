//! A plan as a picture.
#![tactic(auto)]

mod barless;
mod bars;
mod frame;
mod hours;
mod levels;
mod picture;
mod prices;
mod sheet;
mod starts;
mod writing;

pub use bars::{
    add_corner, add_extent, add_time, add_times, add_words, class_of, height_of, is_in_service,
    lane_of, top_of,
};
pub use frame::{add_lanes, add_legend, add_paper, add_style, open_day, open_sized};
pub use hours::{add_hours, add_tenths};
pub use picture::Picture;
pub use sheet::{LANE, Sheet, TOP, day_length};
pub use writing::{ChartFault, write_chart};

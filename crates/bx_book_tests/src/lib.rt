//! Tests of days of a time zone, of bookings read from texts and readers, and of pictures of plans and of days.
#![tactic(auto)]

#[cfg(test)]
mod booking_texts;
#[cfg(test)]
mod day_pictures;
#[cfg(test)]
mod days_drawn;
#[cfg(test)]
mod days_of_zones;
#[cfg(test)]
mod failing_readers;
#[cfg(test)]
mod hour_names;
#[cfg(test)]
mod pictures;
#[cfg(test)]
mod printed_faults;
#[cfg(test)]
mod small_day;
#[cfg(test)]
mod small_picture;
#[cfg(test)]
mod text_faults;
#[cfg(test)]
mod text_limits;

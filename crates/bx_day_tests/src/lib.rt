//! Tests of both days, of replays, of both ends that hear of each other by messages alone, and of octets that no peer would send.
#![tactic(auto)]

#[cfg(test)]
mod agreement;
#[cfg(test)]
mod asked_changes;
#[cfg(test)]
mod batches;
#[cfg(test)]
mod booked_days;
#[cfg(test)]
mod changes;
#[cfg(test)]
mod days_of_messages;
#[cfg(test)]
mod days_of_ticks;
#[cfg(test)]
mod drawn_days;
#[cfg(test)]
mod drawn_lists;
#[cfg(test)]
mod drawn_outages;
#[cfg(test)]
mod example_day;
#[cfg(test)]
mod far_days;
#[cfg(test)]
mod far_octets;
#[cfg(test)]
mod far_outages;
#[cfg(test)]
mod given_up_rows;
#[cfg(test)]
mod handed_days;
#[cfg(test)]
mod hostile_days;
#[cfg(test)]
mod hostile_exchange;
#[cfg(test)]
mod hostile_exchange_days;
#[cfg(test)]
mod hostile_far_days;
#[cfg(test)]
mod hostile_far_end;
#[cfg(test)]
mod hostile_messages;
#[cfg(test)]
mod hostile_octets;
#[cfg(test)]
mod lost_channels;
#[cfg(test)]
mod lost_messages;
#[cfg(test)]
mod market_world;
#[cfg(test)]
mod one_booking;
#[cfg(test)]
mod openings;
#[cfg(test)]
mod outages;
#[cfg(test)]
mod outcome_writers;
#[cfg(test)]
mod quiet_seconds;
#[cfg(test)]
mod replayed_days;
#[cfg(test)]
mod sales;
#[cfg(test)]
mod script_faults;
#[cfg(test)]
mod script_policies;
#[cfg(test)]
mod second_exchange;
#[cfg(test)]
mod second_reading;
#[cfg(test)]
mod second_replies;
#[cfg(test)]
mod second_tables;
#[cfg(test)]
mod steps;
#[cfg(test)]
mod stray_octets;
#[cfg(test)]
mod two_ends;
#[cfg(test)]
mod worked_days;
#[cfg(test)]
mod worked_lists;

//! Tests of the data link: octets that are known from elsewhere, octets that no peer would send, and drawn events at two ends,
//! against a second link that is written for these tests alone.
#![tactic(auto)]

#[cfg(test)]
mod codec;
#[cfg(test)]
mod drawn;
#[cfg(test)]
mod drawn_links;
#[cfg(test)]
mod hostile;
#[cfg(test)]
mod pair;
#[cfg(test)]
mod second_check;
#[cfg(test)]
mod second_link;
#[cfg(test)]
mod second_reading;
#[cfg(test)]
mod worked_link;

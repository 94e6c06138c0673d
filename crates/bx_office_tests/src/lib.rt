//! Tests of the booking office: its gate, whole exchanges of octets, and what it answers.
#![tactic(auto)]

#[cfg(test)]
mod answers;
#[cfg(test)]
mod doors;
#[cfg(test)]
mod exchanges;
#[cfg(test)]
mod gates;
mod keys;
#[cfg(test)]
mod lost_channels;
#[cfg(test)]
mod offices;
mod pages;
#[cfg(test)]
mod quiet_world;
#[cfg(test)]
mod rates;
#[cfg(test)]
mod wires;

//! Tests of messages as octets, and of calls message by message and second by second.
#![tactic(auto)]

#[cfg(test)]
mod bearer_capabilities;
#[cfg(test)]
mod channel_fields;
#[cfg(test)]
mod hostile_octets;
#[cfg(test)]
mod message_faults;
#[cfg(test)]
mod messages;
#[cfg(test)]
mod network_calls;
#[cfg(test)]
mod policies;
#[cfg(test)]
mod restarts;
#[cfg(test)]
mod steps;
#[cfg(test)]
mod unknown_references;
#[cfg(test)]
mod user_calls;

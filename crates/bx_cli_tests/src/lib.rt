//! Tests of the commands over failing devices, of the command line, and of the commands on files.
#![tactic(auto)]

#[cfg(test)]
mod asked_words;
#[cfg(test)]
mod audits;
#[cfg(test)]
mod broken_outputs;
#[cfg(test)]
mod capacity_commands;
#[cfg(test)]
mod captures;
#[cfg(test)]
mod channel_lists;
#[cfg(test)]
mod check_devices;
#[cfg(test)]
mod day_commands;
#[cfg(test)]
mod day_records;
#[cfg(test)]
mod far_lines;
#[cfg(test)]
mod file_commands;
#[cfg(test)]
mod files;
#[cfg(test)]
mod live_days;
#[cfg(test)]
mod lost_channels;
#[cfg(test)]
mod meanings;
#[cfg(test)]
mod notes;
#[cfg(test)]
mod origins;
#[cfg(test)]
mod plan_texts;
#[cfg(test)]
mod plan_writers;
#[cfg(test)]
mod ports;
#[cfg(test)]
mod program;
#[cfg(test)]
mod quote_commands;
#[cfg(test)]
mod rates;
#[cfg(test)]
mod records;
#[cfg(test)]
mod refused_words;
#[cfg(test)]
mod rehearsals;
#[cfg(test)]
mod same_files;
#[cfg(test)]
mod sold_days;
#[cfg(test)]
mod spelled_requests;
#[cfg(test)]
mod standard_input;
#[cfg(test)]
mod worked_texts;
#[cfg(test)]
mod worked_words;

//! Tests of journals.
#![tactic(auto)]

#[cfg(test)]
mod amended_lines;
#[cfg(test)]
mod file_disks;
#[cfg(test)]
mod heads;
#[cfg(test)]
mod losing_disk;
#[cfg(test)]
mod losses;
#[cfg(test)]
mod plain_reading;
#[cfg(test)]
mod readings;
#[cfg(test)]
mod recovered_days;
#[cfg(test)]
mod recoveries;
#[cfg(test)]
mod told;
#[cfg(test)]
mod worked;

//! Tests of what stands under a plan, of the planning, of the check of a plan and its file, and of quotes.
#![tactic(auto)]

#[cfg(test)]
mod all_choices;
#[cfg(test)]
mod amended_plans;
#[cfg(test)]
mod capacities;
#[cfg(test)]
mod carried_plans;
#[cfg(test)]
mod channel_sets;
#[cfg(test)]
mod channels;
#[cfg(test)]
mod checked_plans;
#[cfg(test)]
mod devices;
#[cfg(test)]
mod distances;
#[cfg(test)]
mod flows;
#[cfg(test)]
mod heap_distances;
#[cfg(test)]
mod limits;
#[cfg(test)]
mod lines;
#[cfg(test)]
mod many_bookings;
#[cfg(test)]
mod plan_file_faults;
#[cfg(test)]
mod plan_file_texts;
#[cfg(test)]
mod plan_file_writers;
#[cfg(test)]
mod proved_plans;
#[cfg(test)]
mod quoted_choices;
#[cfg(test)]
mod refused_quotes;
#[cfg(test)]
mod rows;
#[cfg(test)]
mod sets;
#[cfg(test)]
mod short_lines;
#[cfg(test)]
mod slow_distances;
#[cfg(test)]
mod worked_plans;
#[cfg(test)]
mod worked_quotes;

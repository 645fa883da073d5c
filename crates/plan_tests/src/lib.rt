//! Tests of what a handset monitors, from the fields of a format to the plan of a slot, by public calls, with values from outside:
//! `of_NAME.rt` has those of the crate NAME.
#![tactic(auto)]

#[cfg(test)]
mod of_coreset_map;
#[cfg(test)]
mod of_dci_fields;
#[cfg(test)]
mod of_monitor_budget;
#[cfg(test)]
mod of_monitor_plan;
#[cfg(test)]
mod of_search_starts;
#[cfg(test)]
mod of_size_alignment;

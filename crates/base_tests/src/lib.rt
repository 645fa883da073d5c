//! Tests of the lowest crates by their public calls, with values from outside: `of_NAME.rt` has those of the crate NAME.
#![tactic(auto)]

#[cfg(test)]
mod of_alloc_fields;
#[cfg(test)]
mod of_bits_core;
#[cfg(test)]
mod of_gold_scrambler;
#[cfg(test)]
mod of_grid_file;
#[cfg(test)]
mod of_outside;
#[cfg(test)]
mod of_polar_kernel;
#[cfg(test)]
mod of_slot_grid;
#[cfg(test)]
mod of_table_files;

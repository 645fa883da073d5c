//! Tests of what is sent and heard, from the parity to the sweep, by public calls, with values from outside: `of_NAME.rt` has
//! those of the crate NAME.
#![tactic(auto)]

#[cfg(test)]
mod bits;
#[cfg(test)]
mod meeting;
#[cfg(test)]
mod of_blind_search;
#[cfg(test)]
mod of_cell_placer;
#[cfg(test)]
mod of_crc_mask;
#[cfg(test)]
mod of_dci_codec;
#[cfg(test)]
mod of_dmrs_qpsk;
#[cfg(test)]
mod of_par_sweep;
#[cfg(test)]
mod of_polar_chain;
#[cfg(test)]
mod of_polar_sets;
#[cfg(test)]
mod of_rate_match;
#[cfg(test)]
mod of_report_text;

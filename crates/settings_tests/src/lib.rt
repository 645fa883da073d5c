//! Tests of the settings and of the grants by public calls, with values from outside: `of_NAME.rt` has those of the crate NAME.
#![tactic(auto)]

#[cfg(test)]
mod of_grant_file;
#[cfg(test)]
mod of_rrc_settings;
#[cfg(test)]
mod of_settings_json;
#[cfg(test)]
mod words;

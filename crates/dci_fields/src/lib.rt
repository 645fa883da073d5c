//! The fields of downlink control information (3GPP TS 38.212, 7.3.1): formats, rows and widths, packing and unpacking.
#![tactic(auto)]

mod antennas;
mod fault;
mod fitting;
mod formats;
mod formats_rows;
pub mod laws;
mod names;
mod packing;
mod raw_lists;
mod rows;
mod rules;
mod same;
mod sizes;
mod unpacking;
mod values;
mod widths;

pub use fault::{FieldFault, Given};
pub use fitting::{fdra_of, fitted, order_list, width_of};
pub use formats::{Format, Widths, format_of};
pub use names::{FieldName, name_of};
pub use packing::pack;
pub use raw_lists::{has_fields, raw_list};
pub use rows::{FieldList, FieldRow};
pub use sizes::Sizes;
pub use unpacking::unpack;
pub use values::{FieldValue, Values};
pub use widths::fdra_width;

//! The laws of points on the grid, each the contract of a function that does nothing.
ghost use Rattle.dmrs_qpsk.specs.PointLaws.{DataInOrder, HoldsWhatWasPut, ReferencesInOrder};

/// What `put_bits` puts, `take_bits` takes: a grid on which bits were put on REGs holds these bits there, and no others.
pub fn holds_what_was_put()
    ensures { HoldsWhatWasPut }
{}

/// Data place i of the REGs, by symbol and then by rising subcarrier, has the point of bits 2i and 2i + 1
/// (3GPP TS 38.211, 7.3.2.5).
pub fn data_in_order()
    ensures { DataInOrder }
{}

/// Subcarrier 4k + 1 of each REG, where k is below 3, has reference point k of its block (3GPP TS 38.211, 7.4.1.3.2).
pub fn references_in_order()
    ensures { ReferencesInOrder }
{}

//! Widths of the fields that the antenna ports decide.
ghost use Rattle.std.specs.Prelude.{◌≡◌, ◌≤◌};
ghost use Rattle.dci_fields.specs.Antennas.{downlink_ports, sri_width, precoding_width, uplink_ports};

use alloc_fields::bits_for;
use rrc_settings::{DownlinkFields, UplinkFields};

/// The widths of the fields of format 0_1 that the antenna ports decide (3GPP TS 38.212, 7.3.1.1.2).
#[derive(Drop)]
pub(crate) struct AntennaWidths {
    /// The sounding resource.
    pub sri: u32,
    /// The precoding.
    pub precoding: u32,
    /// The antenna ports.
    pub ports: u32,
}

/// Those of one antenna port.
pub(crate) fn antenna_widths(fields: &UplinkFields) -> AntennaWidths
    requires least { 1 ≤ fields.now.srs_resources }
    requires most { fields.now.srs_resources ≤ 2 }
    ensures sri { result.sri ≡ sri_width fields.now }
    ensures precoding { result.precoding ≡ precoding_width fields.now }
    ensures ports { result.ports ≡ uplink_ports fields.now }
    ensures sri_most { result.sri ≤ 1 }
    ensures ports_most { result.ports ≤ 5 }
{
    AntennaWidths {
        sri: bits_for(u32::from(fields.srs_resources)),
        precoding: 0,
        ports: uplink_ports(fields),
    }
}

/// The antenna ports of format 0_1, by the transform precoder and the demodulation reference signal.
fn uplink_ports(fields: &UplinkFields) -> u32
    ensures value { result ≡ uplink_ports fields.now }
    ensures most { result ≤ 5 }
{
    if fields.transform {
        if fields.dmrs_length == 1 { 2 } else { 4 }
    } else if fields.dmrs_type == 1 {
        if fields.dmrs_length == 1 { 3 } else { 4 }
    } else if fields.dmrs_length == 1 {
        4
    } else {
        5
    }
}

/// The antenna ports of format 1_1, by the demodulation reference signal (3GPP TS 38.212, 7.3.1.2.2).
pub(crate) fn downlink_ports(fields: &DownlinkFields) -> u32
    ensures value { result ≡ downlink_ports fields.now }
    ensures most { result ≤ 6 }
{
    if fields.dmrs_type == 1 {
        if fields.dmrs_length == 1 { 4 } else { 5 }
    } else if fields.dmrs_length == 1 {
        5
    } else {
        6
    }
}

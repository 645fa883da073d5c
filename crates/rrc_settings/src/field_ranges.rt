//! The ranges of the numbers that decide the widths of the fields of formats 0_1 and 1_1.
ghost use Rattle.std.specs.Prelude.{◌≡◌, ◌≤◌, length};
ghost use Rattle.rrc_settings.specs.Faults.{found_by};
ghost use Rattle.rrc_settings.specs.Table.{uplink_ranges, downlink_ranges};

use crate::ranges::{between, one_of};
use crate::{DownlinkFields, Key, Place, SettingsFault, UplinkFields};

/// The numbers of format 0_1.
#[tactic(auto, unfolding(crate::specs::Table::uplink_ranges))]
pub(crate) fn uplink_ranges(at: &Place, fields: &UplinkFields) -> Result<(), SettingsFault>
    requires { length at.now.steps.items ≤ 5 }
    ensures { found_by result ≡ uplink_ranges at.now.steps.items fields.now }
{
    between(at, Key::Bwps, 0, 4, fields.bwps as usize)?;
    between(at, Key::RbgConfig, 1, 2, fields.rbg_config as usize)?;
    between(at, Key::Tdra, 0, 4, fields.tdra as usize)?;
    between(at, Key::DmrsType, 1, 2, fields.dmrs_type as usize)?;
    between(at, Key::DmrsLength, 1, 2, fields.dmrs_length as usize)?;
    between(at, Key::SrsResources, 1, 2, fields.srs_resources as usize)?;
    between(at, Key::CsiRequest, 0, 6, fields.csi_request as usize)?;
    one_of(at, Key::Cbg, &[0, 2, 4, 6, 8], fields.cbg)
}

/// The numbers of format 1_1.
#[tactic(auto, unfolding(crate::specs::Table::downlink_ranges))]
pub(crate) fn downlink_ranges(at: &Place, fields: &DownlinkFields) -> Result<(), SettingsFault>
    requires { length at.now.steps.items ≤ 5 }
    ensures { found_by result ≡ downlink_ranges at.now.steps.items fields.now }
{
    between(at, Key::Bwps, 0, 4, fields.bwps as usize)?;
    between(at, Key::RbgConfig, 1, 2, fields.rbg_config as usize)?;
    between(at, Key::Tdra, 0, 4, fields.tdra as usize)?;
    between(at, Key::RateMatch, 0, 2, fields.rate_match as usize)?;
    between(at, Key::ZpSets, 0, 3, fields.zp_sets as usize)?;
    between(at, Key::Codewords, 1, 2, fields.codewords as usize)?;
    between(at, Key::Timing, 0, 3, fields.timing as usize)?;
    between(at, Key::DmrsType, 1, 2, fields.dmrs_type as usize)?;
    between(at, Key::DmrsLength, 1, 2, fields.dmrs_length as usize)?;
    one_of(at, Key::Cbg, &[0, 2, 4, 6, 8], fields.cbg)
}

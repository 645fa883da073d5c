//! Aggregation levels (3GPP TS 38.211, 7.3.2.1).
ghost use Rattle.std.specs.Prelude.{◌≡◌};
ghost use Rattle.rrc_settings.specs.AggregationLevels.{is_level};

/// The aggregation levels, rising: how many CCEs a candidate has.
pub const LEVELS: [u8; 5] = [1, 2, 4, 8, 16];

/// Whether a number is an aggregation level.
pub fn is_level(number: u16) -> bool
    ensures { result ≡ is_level number }
{
    LEVELS.iter().any(|level| number == *level as u16)
}

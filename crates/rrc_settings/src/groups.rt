//! The groups of six blocks of a CORESET, each a bit of a number (3GPP TS 38.213, 10.1).
ghost use Rattle.std.specs.Prelude.{◌≡◌, ◌<◌, ◌≤◌, length};
ghost use Rattle.rrc_settings.specs.BitSets.{has_bit};
ghost use Rattle.rrc_settings.specs.ControlGroups.{group_block, groups_of};
ghost use Rattle.rrc_settings.specs.GroupBits.{bits_counted};

/// Whether bit `place` of a number is one.
pub fn has_bit(number: u64, place: u32) -> bool
    requires { place < 64 }
    ensures { result ≡ has_bit number place }
{
    number >> place & 1 == 1
}

/// The first block of a group in the bandwidth part that begins at block `start`.
pub fn group_block(start: u16, group: u32) -> u32
    requires { group < 64 }
    ensures { result ≡ group_block start group }
{
    6 * ((u32::from(start) + 5) / 6) + 6 * group
}

/// How many bits are one.
#[tactic(auto, unfolding(crate::specs::GroupBits::bits_counted))]
fn count_of_bits(groups: u64) -> u32
    ensures value { result ≡ bits_counted groups }
    ensures most { result ≤ 64 }
{
    (0..64).filter(|group| has_bit(groups, *group)).count() as u32
}

/// How many groups of six blocks there are.
#[tactic(auto, using(crate::proofs::GroupTests::groups_counted))]
pub(crate) fn count_of_groups(groups: u64) -> u32
    ensures value { result ≡ length (groups_of groups) }
    ensures most { result ≤ 64 }
{
    count_of_bits(groups)
}

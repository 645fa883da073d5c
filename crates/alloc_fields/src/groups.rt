//! Groups of blocks, which are granted together.
ghost use Rattle.std.specs.Prelude.{◌≡◌, ◌≤◌, ◌⊎◌};
ghost use Rattle.alloc_fields.specs.Groups.{group_size, rbg_count};

/// How many groups of blocks a bandwidth part has that begins at block `start` (3GPP TS 38.214, 5.1.2.2.1).
pub fn group_count(size: u16, start: u16, config: u16) -> u16
    requires least { 1 ≤ size }
    requires most { size ≤ 275 }
    requires start { start ≤ 275 }
    requires config { (config ≡ 1) ⊎ (config ≡ 2) }
    ensures value { result ≡ rbg_count size start config }
    ensures least { 1 ≤ result }
    ensures most { result ≤ 19 }
{
    let blocks = group_size(size, config);
    (size + start % blocks + (blocks - 1)) / blocks
}

/// How many blocks a group has, but for the first and the last one.
#[tactic(auto, unfolding(crate::specs::Groups::group_size))]
fn group_size(size: u16, config: u16) -> u16
    ensures value { result ≡ group_size size config }
    ensures least { 2 ≤ result }
    ensures most { result ≤ 16 }
{
    if size <= 36 {
        if config == 1 { 2 } else { 4 }
    } else if size <= 72 {
        if config == 1 { 4 } else { 8 }
    } else if size <= 144 {
        if config == 1 { 8 } else { 16 }
    } else {
        16
    }
}

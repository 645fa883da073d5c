//! The call that owns each REG of the slot.
ghost use Rattle.std.specs.Prelude.{◌≡◌, ℕ, ◌+◌, ◌*◌, ◌<◌, ◌≤◌, length};
ghost use Rattle.coreset_map.specs.RegOrder.{reg_at};
ghost use Rattle.cell_placer.specs.Owners.{least, least_owner, owned, owner_place};

use coreset_map::Reg;

/// The least call that owns one of the REGs, whose symbols are counted from `symbol` on.
#[tactic(auto, unfolding(crate::specs::Owners::least_owner))]
pub(crate) fn least_owner(
    owners: &[Option<u32>],
    blocks: u16,
    symbol: u8,
    regs: &[Reg],
) -> Option<u32>
    requires size { length owners.now ≡ 14 * blocks }
    requires inside { (j : ℕ) → j < length regs.now
        → (symbol + (reg_at regs.now j).symbol < 14) × ((reg_at regs.now j).block < blocks) }
    ensures { result ≡ least_owner owners.now blocks symbol regs.now }
{
    let mut best = None;
    for reg in regs {
        best = least(best, owners[owner_place(blocks, symbol, *reg)]);
    }
    best
}

/// Makes a call own the REGs.
#[tactic(auto, unfolding(crate::specs::Owners::owned))]
pub(crate) fn own(owners: &mut [Option<u32>], blocks: u16, symbol: u8, regs: &[Reg], call: u32)
    requires size { length owners.old ≡ 14 * blocks }
    requires inside { (j : ℕ) → j < length regs.now
        → (symbol + (reg_at regs.now j).symbol < 14) × ((reg_at regs.now j).block < blocks) }
    ensures { owners.new ≡ owned call blocks symbol owners.old regs.now }
{
    for reg in regs {
        owners[owner_place(blocks, symbol, *reg)] = Some(call);
    }
}

/// The least of two numbers, where they are there.
fn least(a: Option<u32>, b: Option<u32>) -> Option<u32>
    ensures { result ≡ least a b }
{
    match (a, b) {
        (None, b) => b,
        (Some(a), None) => Some(a),
        (Some(a), Some(b)) => Some(if b < a { b } else { a }),
    }
}

/// Where the owner of a REG stands in the table.
fn owner_place(blocks: u16, symbol: u8, reg: Reg) -> usize
    requires { symbol + reg.symbol < 14 }
    ensures value { result ≡ owner_place blocks symbol reg }
    ensures below { reg.block < blocks → result < 14 * blocks }
{
    usize::from(symbol + reg.symbol) * usize::from(blocks) + usize::from(reg.block)
}

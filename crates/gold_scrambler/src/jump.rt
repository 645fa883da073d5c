//! The first 1,600 steps of the registers at once.
//!
//! A step is linear over the bits of a register. So where the second register stands after 1,600 steps is the sum of where
//! it stands from each single one of the start value.
ghost use Rattle.std.specs.Prelude.{◌≡◌, ◌^◌, ◌<◌};
ghost use Rattle.gold_scrambler.specs.Gold.{state1, state2};
ghost use Rattle.gold_scrambler.specs.SingleBits.{of_single_bits};

/// The first register after 1,600 steps.
const FIRST: u32 = 1581799488;

/// The second register after 1,600 steps from each single bit of the start value, low bit first.
const SECOND: [u32; 31] = [
    1888000256, 295283457, 1404817155, 1476331271, 805178894, 1610357788, 1073231928, 2146463856,
    2145444065, 2143404482, 2139325316, 2131166984, 2114850321, 2082216994, 2016950340, 1886417032,
    1625350417, 1103217186, 58950724, 117901449, 235802899, 471605798, 943211596, 1886423193,
    1625362738, 1103241828, 59000008, 118000016, 236000032, 472000064, 944000128,
];

/// The first register after 1,600 steps.
pub(crate) fn first_after_offset() -> u32
    ensures register { result ≡ state1 1600 }
    ensures small { result < 2 ^ 31 }
{
    FIRST
}

/// The second register after 1,600 steps from the start value `c_init`.
pub(crate) fn second_after_offset(c_init: u32) -> u32
    requires { c_init < 2 ^ 31 }
    ensures register { result ≡ state2 c_init 1600 }
    ensures small { result < 2 ^ 31 }
{
    sum_at_ones(&SECOND, c_init)
}

/// The sum of the registers in `singles` at the ones of `c_init`.
fn sum_at_ones(singles: &[u32; 31], c_init: u32) -> u32
    requires start { c_init < 2 ^ 31 }
    requires singles { singles.now ≡ of_single_bits }
    ensures register { result ≡ state2 c_init 1600 }
    ensures small { result < 2 ^ 31 }
{
    let mut sum = 0;
    for bit in 0..31 {
        if c_init >> bit & 1 == 1 {
            sum ^= singles[bit];
        }
    }
    sum
}

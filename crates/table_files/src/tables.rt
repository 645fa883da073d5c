//! The two tables of the polar code.
ghost use Rattle.std.specs.Prelude.{◌≡◌, ◌<◌, ◌≤◌, ◌↔◌, ◌&&◌, IsTrue, List, nat_eq, slice_index, ℕ};
ghost use Rattle.std.specs.Cmp.Lexicographic.{pointwise};
ghost use Rattle.table_files.specs.Permutation.{IsTable};
ghost use Rattle.table_files.specs.SpelledTables.{Spells};
ghost use Rattle.table_files.specs.TableText.{read_table};

use crate::TableFault;
use crate::reader::read_numbers;
use std::marker::Model;

/// Each number below `N` once, in some order.
#[derive(Debug, Drop)]
pub struct Permutation<const N: usize> {
    entries: [u16; N],
}

/// The bit channels of the polar code from the least reliable on (3GPP TS 38.212, 5.3.1.2).
pub type Reliability = Permutation<1024>;

/// The order in which the bits of a block enter the polar code (3GPP TS 38.212, 5.3.1.1).
pub type InputOrder = Permutation<164>;

impl<const N: usize> Model for Permutation<N> {
    ghost use Rattle.std.specs.Prelude.{List, ℕ};
    ghost use Rattle.table_files.specs.Permutation.{IsTable};

    ghost Value = { List ℕ };

    ghost view = { λ p. p.entries };

    ghost invariant = { λ p. IsTable N p.entries };
}

impl<const N: usize> PartialEq for Permutation<N> {
    ghost use Rattle.std.specs.Prelude.{nat_eq};
    ghost use Rattle.std.specs.Cmp.Lexicographic.{pointwise};
    ghost use Rattle.std.specs.Cmp.Rules.{comparing};
    ghost use Rattle.std.proofs.Common.{rules};

    ghost eq = { pointwise nat_eq };

    ghost laws = { Prim.search (comparing, rules) };

    /// Whether both tables have the same entries.
    fn eq(&self, other: &Permutation<N>) -> bool
        ensures value { result ≡ pointwise nat_eq self.now other.now }
        ensures same { IsTrue result ↔ (self.now ≡ other.now) }
    {
        self.entries == other.entries
    }
}

impl<const N: usize> Eq for Permutation<N> {
    ghost use Rattle.std.specs.Cmp.Rules.{comparing};
    ghost use Rattle.std.proofs.Common.{rules};

    ghost laws = { Prim.search (comparing, rules) };
}

impl<const N: usize> Permutation<N> {
    /// The entry at `place`.
    pub fn at(&self, place: usize) -> u16
        requires { place < N }
        ensures entry { result ≡ slice_index self.now place }
        ensures inside { result < N }
        ensures table { IsTable N self.now }
    {
        self.entries[place]
    }
}

/// The tables of the polar code.
#[derive(Debug, Drop)]
pub struct Tables {
    pub reliability: Reliability,
    pub input_order: InputOrder,
}

impl PartialEq for Tables {
    ghost use Rattle.std.specs.Prelude.{nat_eq, ◌&&◌};
    ghost use Rattle.std.specs.Cmp.Lexicographic.{pointwise};
    ghost use Rattle.std.specs.Cmp.Rules.{comparing};
    ghost use Rattle.std.proofs.Common.{rules};

    ghost eq = { λ a b. pointwise nat_eq a.reliability b.reliability && pointwise nat_eq a.input_order b.input_order };

    ghost laws = { Prim.search (comparing, rules) };

    /// Whether both pairs have the same tables.
    fn eq(&self, other: &Tables) -> bool
        ensures value { result ≡ (pointwise nat_eq self.now.reliability other.now.reliability
            && pointwise nat_eq self.now.input_order other.now.input_order) }
        ensures same { IsTrue result ↔ (self.now ≡ other.now) }
    {
        self.reliability == other.reliability && self.input_order == other.input_order
    }
}

impl Eq for Tables {
    ghost use Rattle.std.specs.Cmp.Rules.{comparing};
    ghost use Rattle.std.proofs.Common.{rules};

    ghost laws = { Prim.search (comparing, rules) };
}

/// The reliability table that a text spells, or the text's first fault.
pub fn read_reliability(bytes: &[u8]) -> Result<Reliability, TableFault>
    ensures read { result ≡ read_table 1024 bytes.now }
    ensures spelled { (numbers : List ℕ) → (result ≡ Ok numbers) ↔ (IsTable 1024 numbers × Spells bytes.now numbers) }
{
    read_permutation(bytes)
}

/// The input order that a text spells, or the text's first fault.
pub fn read_input_order(bytes: &[u8]) -> Result<InputOrder, TableFault>
    ensures read { result ≡ read_table 164 bytes.now }
    ensures spelled { (numbers : List ℕ) → (result ≡ Ok numbers) ↔ (IsTable 164 numbers × Spells bytes.now numbers) }
{
    read_permutation(bytes)
}

/// The permutation that a text spells, or the text's first fault.
fn read_permutation<const N: usize>(bytes: &[u8]) -> Result<Permutation<N>, TableFault>
    requires { N ≤ 1024 }
    ensures read { result ≡ read_table N bytes.now }
    ensures spelled { (numbers : List ℕ) → (result ≡ Ok numbers) ↔ (IsTable N numbers × Spells bytes.now numbers) }
{
    let mut entries = [0; N];
    read_numbers(bytes, &mut entries)?;
    Ok(Permutation { entries })
}

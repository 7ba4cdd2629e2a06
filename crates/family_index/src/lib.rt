// The index of each family of congruence groups, for N from 1 to 1,000. That of Γ0(N) is read in a table.
// The functions have `requires`, for they are called from inside the engine.
#![tactic(auto)]

ghost use Rattle.std.specs.Prelude.{◌≡◌, true, ◌≤◌, ◌<◌, length};
ghost use Rattle.congruence.specs.Index.{index0, family_index};
ghost use Rattle.congruence.specs.Inner.Common.{Modulus};
ghost use Rattle.family_index.specs.Gamma0Entry.{Gamma0Entry};
ghost use Rattle.family_index.specs.Inner.Test.{right_from};

use congruence::Family;
use congruence::modular::half_units;

// What the program `index_table` writes is this file, byte for byte.
pub mod gamma0;

// The entry for n of a table that is right at all its places.
fn entry_of(table: &[u16], n: u64) -> u64
    requires { (0 < n) × (n ≤ length table.now) × (right_from 1 table.now ≡ true) }
    ensures { (result ≡ index0 n) × Gamma0Entry n result × (result ≤ 65535) }
{
    let at = (n - 1) as usize;
    u64::from(table[at])
}

// The entry of the table for N: the index of Γ0(N).
pub fn table_entry(n: u64) -> u64
    requires { Modulus n }
    ensures value { result ≡ index0 n }
    ensures gamma0entry { Gamma0Entry n result }
    ensures upper_bound { result ≤ 65535 }
{
    entry_of(&gamma0::INDEX, n)
}

// The index of a family.
pub fn family_index(f: Family, n: u64) -> u64
    requires { Modulus n }
    ensures { result ≡ family_index f n }
{
    let zero = table_entry(n);
    match f {
        Family::Gamma0 => zero,
        Family::Gamma1 => half_units(n) * zero,
        Family::Gamma => n * (half_units(n) * zero),
    }
}

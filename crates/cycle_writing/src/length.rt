// The length of an export, before it is written. One walk for the length and the bytes, by a trait for what it puts,
// would be no plainer: its laws would be those of both files, and the two bounds below hold of the length alone.
ghost use Rattle.std.specs.Prelude.{◌≡◌, ◌*◌, ◌≤◌, ◌<◌, length};
ghost use Rattle.decimal.specs.Decimal.{digits};
ghost use Rattle.cycle_writing.specs.Cycles.{cycles_of};
ghost use Rattle.cycle_writing.specs.Bytes.{permutation_bytes, export_of};
ghost use Rattle.cycle_writing.specs.Inner.Short.{ShortTable, StartIn, bytes_at, bytes_below};

use crate::start::is_start;
use permutations::image;

// How many digits a number below 10,000 has.
fn digit_count(n: usize) -> usize
    requires { n < 10000 }
    ensures { (result ≡ length (digits n)) × (result ≤ 4) }
{
    match n {
        0..=9 => 1,
        10..=99 => 2,
        100..=999 => 3,
        _ => 4,
    }
}

// The length of the cycle that begins at x: its points' digits, a comma between two of them, and the brackets.
fn cycle_length(t: &[u32], x: usize) -> usize
    requires { StartIn t.now x }
    ensures { (result ≡ length (bytes_at t.now x)) × (result ≤ 16) }
{
    let a = image(t, x);
    let b = image(t, a);
    let first = digit_count(x + 1);
    let second = digit_count(a + 1);
    if b == x {
        first + second + 3
    } else {
        first + second + digit_count(b + 1) + 4
    }
}

// The length of all cycles.
fn cycles_length(t: &[u32]) -> usize
    requires { ShortTable t.now }
    ensures { (result ≡ length (bytes_below t.now (length t.now))) × (result ≤ 49056) }
{
    let mut k = 0;
    for x in 0..t.len() {
        if is_start(t, x) {
            k += cycle_length(t, x);
        }
    }
    k
}

// The length of a permutation: of its cycles, or of `()`.
fn permutation_length(t: &[u32]) -> usize
    requires { ShortTable t.now }
    ensures { (result ≡ length (permutation_bytes (cycles_of t.now))) × (result ≤ 49056) }
{
    let k = cycles_length(t);
    if k == 0 { 2 } else { k }
}

// The length of an export: the index, a blank, S, a semicolon and R.
pub(crate) fn export_length(s: &[u32], r: &[u32]) -> usize
    requires { ShortTable s.now × ShortTable r.now }
    ensures { result ≡ length (export_of s.now r.now) }
{
    let index = digit_count(s.len());
    let first = permutation_length(s);
    let second = permutation_length(r);
    index + first + second + 2
}

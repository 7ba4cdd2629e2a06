// The bytes of an export, put into a lent slice one after another: each call says where its bytes end, and the next
// ones start there.
ghost use Rattle.std.specs.Prelude.{◌++◌, ◌+◌, ◌≤◌, length};
ghost use Rattle.decimal.specs.Decimal.{digits};
ghost use Rattle.decimal.specs.Writing.{Puts};
ghost use Rattle.cycle_writing.specs.Cycles.{cycles_of};
ghost use Rattle.cycle_writing.specs.Bytes.{permutation_bytes, export_of};
ghost use Rattle.cycle_writing.specs.Inner.Short.{ShortTable, StartIn, bytes_at, bytes_below};

use crate::start::is_start;
use decimal::put;
use permutations::image;

// The digits of n.
fn put_number(n: usize, out: &mut [u8], at: usize) -> usize
    requires { at + length (digits n) ≤ length out.old }
    ensures { Puts (digits n) at result out.old out.new }
{
    // `as`: there is no `From` from `usize` to `u64`.
    decimal::write_natural(n as u64, out, at).unwrap()
}

// Some bytes and the digits of n.
fn put_behind(before: &[u8], n: usize, out: &mut [u8], at: usize) -> usize
    requires { at + (length before.now + length (digits n)) ≤ length out.old }
    ensures { Puts (before.now ++ digits n) at result out.old out.new }
{
    let from = put(before, out, at);
    put_number(n, out, from)
}

// The cycle that begins at x, of two points or three.
fn put_cycle(t: &[u32], x: usize, out: &mut [u8], at: usize) -> usize
    requires { StartIn t.now x × (at + length (bytes_at t.now x) ≤ length out.old) }
    ensures { Puts (bytes_at t.now x) at result out.old out.new }
{
    let a = image(t, x);
    let b = image(t, a);
    let first = put_behind(b"(", x + 1, out, at);
    let mut last = put_behind(b",", a + 1, out, first);
    if b != x {
        last = put_behind(b",", b + 1, out, last);
    }
    put(b")", out, last)
}

// All cycles.
fn put_cycles(t: &[u32], out: &mut [u8], at: usize) -> usize
    requires { ShortTable t.now × (at + length (bytes_below t.now (length t.now)) ≤ length out.old) }
    ensures { Puts (bytes_below t.now (length t.now)) at result out.old
        out.new }
{
    let mut end = at;
    for x in 0..t.len() {
        if is_start(t, x) {
            end = put_cycle(t, x, out, end);
        }
    }
    end
}

// A permutation: its cycles, or `()`.
fn put_permutation(t: &[u32], out: &mut [u8], at: usize) -> usize
    requires { ShortTable t.now × (at + length (permutation_bytes (cycles_of t.now)) ≤ length out.old) }
    ensures { Puts (permutation_bytes (cycles_of t.now)) at result out.old out.new }
{
    let end = put_cycles(t, out, at);
    if end == at { put(b"()", out, at) } else { end }
}

// The whole export, from the front of `out`.
pub(crate) fn put_export(s: &[u32], r: &[u32], out: &mut [u8]) -> usize
    requires { ShortTable s.now × ShortTable r.now × (length (export_of s.now r.now) ≤ length out.old) }
    ensures { Puts (export_of s.now r.now) 0 result out.old out.new }
{
    let index = put_number(s.len(), out, 0);
    let blank = put(b" ", out, index);
    let first = put_permutation(s, out, blank);
    let semicolon = put(b";", out, first);
    put_permutation(r, out, semicolon)
}

// Lines of text, put into a lent slice of bytes one after another: each call says where its bytes end, and the next
// ones start there. The calls ask for room, for the programs that make them know how long a line can get: with a space,
// 21 bytes hold any number, 6 bytes a natural number of 16 bits, and 7 bytes a signed one of 16 bits.
ghost use Rattle.std.specs.Prelude.{◌≡◌, ◌∷◌, ◌+◌, ◌-◌, ◌*◌, ◌≤◌, ℕ, ℤ, pos, map, length};
ghost use Rattle.std.proofs.Common.{rules};
ghost use Rattle.decimal.specs.Decimal.{decimal_of};
ghost use Rattle.text.specs.Line.{spaced, line, refusal_line};
ghost use Rattle.decimal.specs.Writing.{Puts};

use call::refusal::Refusal;
use decimal::{put, write, write_natural};

// A number of some type, which has a decimal form: which number it is, and how many bytes the form takes at most.
pub trait Decimal: Copy {
    ghost value: { Self → ℤ };

    ghost most: { ℕ };

    // Puts the decimal form into `out` from `at` on; where it ends.
    fn put(self, out: &mut [u8], at: usize) -> usize
        requires { at + 20 ≤ length out.old }
        ensures puts { Puts (decimal_of (value self)) at result out.old out.new }
        ensures within { result ≤ at + most };

    ghost short: { most ≤ 20 };
}

impl Decimal for u64 {
    ghost value = { λ n. pos n };

    ghost most = { 20 };

    fn put(self, out: &mut [u8], at: usize) -> usize {
        write_natural(self, out, at).unwrap_or(at)
    }

    ghost short = { Prim.search rules };
}

impl Decimal for i64 {
    ghost value = { λ z. z };

    ghost most = { 20 };

    fn put(self, out: &mut [u8], at: usize) -> usize {
        write(self, out, at).unwrap_or(at)
    }

    ghost short = { Prim.search rules };
}

impl Decimal for usize {
    ghost value = { λ n. pos n };

    ghost most = { 20 };

    fn put(self, out: &mut [u8], at: usize) -> usize {
        (self as u64).put(out, at)
    }

    ghost short = { Prim.search rules };
}

// An entry of a table of permutations.
impl Decimal for u32 {
    ghost value = { λ n. pos n };

    ghost most = { 10 };

    fn put(self, out: &mut [u8], at: usize) -> usize {
        u64::from(self).put(out, at)
    }

    ghost short = { Prim.search rules };
}

// An entry of a table in a work space.
impl Decimal for u16 {
    ghost value = { λ n. pos n };

    ghost most = { 5 };

    fn put(self, out: &mut [u8], at: usize) -> usize {
        u64::from(self).put(out, at)
    }

    ghost short = { Prim.search rules };
}

// A letter of a word.
impl Decimal for i16 {
    ghost value = { λ z. z };

    ghost most = { 6 };

    fn put(self, out: &mut [u8], at: usize) -> usize {
        i64::from(self).put(out, at)
    }

    ghost short = { Prim.search rules };
}

// A space and the number x.
pub fn put_spaced<T: Decimal>(x: T, out: &mut [u8], at: usize) -> usize
    requires { at + 21 ≤ length out.old }
    ensures { Puts (32 ∷ decimal_of (T.value x)) at result out.old out.new
        × (result ≤ at + (T.most + 1)) }
{
    let from = put(b" ", out, at);
    x.put(out, from)
}

// The numbers xs, each behind a space.
pub fn put_each<T: Decimal>(xs: &[T], out: &mut [u8], at: usize) -> usize
    requires { at + ((T.most + 1) * length xs.now + (20 - T.most)) ≤ length out.old }
    ensures { Puts (spaced (map T.value xs.now)) at result out.old out.new
        × (result ≤ at + (T.most + 1) * length xs.now) }
{
    let mut end = at;
    for x in xs {
        end = put_spaced(*x, out, end);
    }
    end
}

// A line of the numbers xs.
pub fn line_of<T: Decimal>(name: &[u8], xs: &[T], out: &mut [u8], at: usize) -> usize
    requires { at + (length name.now + (T.most + 1) * length xs.now + (20 - T.most) + 1) ≤ length out.old }
    ensures { Puts (line name.now (map T.value xs.now)) at result out.old out.new
        × (result ≤ at + (length name.now + (T.most + 1) * length xs.now + 1)) }
{
    let first = put(name, out, at);
    let second = put_each(xs, out, first);
    put(b"\n", out, second)
}

// The line for a refusal: its number and its place, from the front of `out`.
pub fn refusal_line(refused: Refusal, out: &mut [u8]) -> usize
    requires { 50 ≤ length out.old }
    ensures { Puts (refusal_line refused) 0 result out.old out.new }
{
    let numbers = [refused.number(), refused.place() as u64];
    line_of(b"refused", &numbers, out, 0)
}

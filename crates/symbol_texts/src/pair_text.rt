// A pair of permutations as text, as the job `import` reads one: the number of points, the table of S and the table
// of R, each in a line (specs/Pair.antt). For every program that prints a pair.
ghost use Rattle.std.specs.Prelude.{◌≡◌, [], ◌∷◌, map, ◌+◌, ◌*◌, ◌≤◌, length};
ghost use Rattle.text.specs.Line.{natural, spaced};
ghost use Rattle.decimal.specs.Writing.{Puts};
ghost use Rattle.symbol_texts.specs.ImportAnswer.{number_line};
ghost use Rattle.symbol_texts.specs.Pair.{pair_text};
ghost use Rattle.symbol_texts.specs.Inner.PairFits.{EachBelow, PairFits};

use decimal::put;
use text::line::{Decimal, put_spaced};

// The points xs, each behind a space: a point has four digits at most.
fn put_points(xs: &[u32], out: &mut [u8], at: usize) -> usize
    requires { EachBelow 3066 xs.now × (at + (5 * length xs.now + 21) ≤ length out.old) }
    ensures { Puts (spaced (map natural xs.now)) at result out.old out.new
        × (result ≤ at + 5 * length xs.now) }
{
    let mut end = at;
    for x in xs {
        end = put_spaced(*x, out, end);
    }
    end
}

// A table, which has a point, in a line. It asks for less room than `number_line`, for a point is below 3,066.
fn table_line(xs: &[u32], out: &mut [u8], at: usize) -> usize
    requires { (1 ≤ length xs.now) × EachBelow 3066 xs.now
        × (at + (5 * length xs.now + 41) ≤ length out.old) }
    ensures { Puts (number_line (map natural xs.now)) at result out.old out.new
        × (result ≤ at + (5 * length xs.now + 20)) }
{
    let first = xs[0].put(out, at);
    let second = put_points(&xs[1..], out, first);
    put(b"\n", out, second)
}

// A number in a line, at the front.
pub(crate) fn count_line(n: usize, out: &mut [u8]) -> usize
    requires { 21 ≤ length out.old }
    ensures { Puts (number_line (natural n ∷ [])) 0 result out.old out.new × (result ≤ 21) }
{
    let first = n.put(out, 0);
    put(b"\n", out, first)
}

// The tables of S and R, from the front of `out`; where the text ends.
pub fn pair_lines(s: &[u32], r: &[u32], out: &mut [u8]) -> usize
    requires { PairFits s.now r.now × (65536 ≤ length out.old) }
    ensures { Puts (pair_text s.now r.now) 0 result out.old out.new }
{
    let first = count_line(s.len(), out);
    let second = table_line(s, out, first);
    table_line(r, out, second)
}

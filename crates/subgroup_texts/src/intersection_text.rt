// The lines that the job `intersection` writes for two symbols, byte for byte, as specs/IntersectionAnswer.antt says.
ghost use Rattle.std.specs.Prelude.{◌≤◌, length};
ghost use Rattle.decimal.specs.Writing.{Puts};
ghost use Rattle.containment.specs.TwoSymbols.{common_s, common_r};
ghost use Rattle.symbol_texts.specs.Pair.{pair_lines_by};
ghost use Rattle.subgroup_texts.specs.IntersectionAnswer.{intersection_for};

use intersections::intersection;
use symbol_texts::pair_text::pair_lines;
use text::line::refusal_line;

// The lines for the symbols in t and u: the tables of S and R of the intersection, or the refusal.
pub fn intersection_lines(v: usize, t: &[i64], n: usize, u: &[i64], out: &mut [u8]) -> usize
    requires { 65536 ≤ length out.old }
    ensures { Puts (pair_lines_by (intersection_for v t.now n u.now)
        (common_s v t.now n u.now) (common_r v t.now n u.now)) 0 result
        out.old out.new }
{
    let mut w = [0u16; 32768];
    let mut a = [0u32; 3066];
    let mut b = [0u32; 3066];
    let mut c = [0u32; 3066];
    let made = intersection(v, t, n, u, &mut w, &mut a, &mut b, &mut c);
    match made {
        Ok(points) => pair_lines(&a[..points], &b[..points], out),
        Err(refusal) => refusal_line(refusal, out),
    }
}

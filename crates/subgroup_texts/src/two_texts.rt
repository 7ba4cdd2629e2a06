// What the jobs `same` and `intersection` write for a text: all of it, byte for byte, as specs/SameAnswer.antt and
// specs/IntersectionAnswer.antt say. Both read two symbols' texts, one after the other.
ghost use Rattle.std.specs.Prelude.{◌≤◌, length};
ghost use Rattle.decimal.specs.Writing.{Puts};
ghost use Rattle.subgroup_texts.specs.SameAnswer.{two};
ghost use Rattle.subgroup_texts.specs.Inner.TwoTexts.{lines_of_two, bytes_of_two};

use crate::intersection_text::intersection_lines;
use crate::same_text::{read_two, same_lines};
use text::line::refusal_line;
use text::vertex_count;

// What is asked of two symbols.
#[derive(Clone, Copy)]
pub enum Asked {
    // Whether they are of the same subgroup.
    Same,
    // The tables of the intersection.
    Intersection,
}

// The lines for the numbers of two symbols' texts.
fn two_lines(asked: Asked, one: &[i64], other: &[i64], out: &mut [u8]) -> usize
    requires { (1 ≤ length one.now) × (1 ≤ length other.now) × (65536 ≤ length out.old) }
    ensures { Puts (lines_of_two asked (two one.now other.now)) 0 result out.old
        out.new }
{
    let v = vertex_count(one[0]);
    let n = vertex_count(other[0]);
    match asked {
        Asked::Same => same_lines(v, &one[1..], n, &other[1..], out),
        Asked::Intersection => intersection_lines(v, &one[1..], n, &other[1..], out),
    }
}

// What is asked of the symbols of a text, from the front of `out`, where `longer` says that the input goes on behind
// the text; where it ends.
pub fn answer(text: &[u8], longer: bool, asked: Asked, out: &mut [u8]) -> usize
    requires { 65536 ≤ length out.old }
    ensures { Puts (bytes_of_two asked longer text.now) 0 result out.old out.new }
{
    let mut one = [0i64; 3071];
    let mut other = [0i64; 3071];
    let reading = read_two(text, longer, &mut one, &mut other);
    match reading {
        Err(refusal) => refusal_line(refusal, out),
        Ok((k, j)) => two_lines(asked, &one[..k], &other[..j], out),
    }
}

// How two symbols' texts are read, and the line that the job `same` writes for two symbols (specs/SameAnswer.antt).
ghost use Rattle.std.specs.Prelude.{◌≡◌, false, ◌+◌, ◌≤◌, length};
ghost use Rattle.call.specs.Refusal.{refusal_place};
ghost use Rattle.decimal.specs.Writing.{Puts};
ghost use Rattle.subgroup_texts.specs.SameAnswer.{same_line, in_whole};
ghost use Rattle.subgroup_texts.specs.Inner.TwoTexts.{same_for, ReadsTwo};

use call::refusal::Refusal;
use containment::sameness::same;
use decimal::put;
use text::line::refusal_line;
use text::part::part_end;
use text::{Format, TEXT_MOST, read};

// The line for an answer.
fn same_line(answer: Result<bool, Refusal>, out: &mut [u8]) -> usize
    requires { 50 ≤ length out.old }
    ensures { Puts (same_line answer) 0 result out.old out.new }
{
    match answer {
        Ok(true) => put(b"same\n", out, 0),
        Ok(false) => put(b"different\n", out, 0),
        Err(refusal) => refusal_line(refusal, out),
    }
}

// The line for two symbols.
pub fn same_lines(v: usize, t: &[i64], n: usize, u: &[i64], out: &mut [u8]) -> usize
    requires { 50 ≤ length out.old }
    ensures { Puts (same_line (same_for v t.now n u.now)) 0 result out.old
        out.new }
{
    let mut w = [0u16; 32768];
    let answer = same(v, t, n, u, &mut w);
    same_line(answer, out)
}

// A refusal of the second text, which begins at the byte `at`.
fn moved(refusal: Refusal, at: usize) -> Refusal
    requires { at + refusal_place refusal ≤ 131072 }
    ensures { result ≡ in_whole at refusal }
{
    Refusal::BadText(at + refusal.place())
}

// What a text that isn't too long gives: how many numbers of the first symbol stand at the front of its slice, and how
// many of the second at the front of the other.
fn read_texts(text: &[u8], one: &mut [i64], other: &mut [i64]) -> Result<(usize, usize), Refusal>
    requires { (length text.now ≤ 65536) × (length one.old ≡ 3071) × (length other.old ≡ 3071) }
    ensures { ReadsTwo false text.now result one.new other.new }
{
    let format = Format {
        least: 1,
        most: 1023,
        each: 3,
        more: 2,
    };
    let at = part_end(text, format);
    let k = read(&text[..at], format, one)?;
    if k < 2 {
        return Err(Refusal::BadVertexCount);
    }
    match read(&text[at..], format, other) {
        Err(refusal) => Err(moved(refusal, at)),
        Ok(j) => Ok((k, j)),
    }
}

// What any text gives, where `longer` says that more was sent than the program's buffer holds. For every program that
// reads two symbols.
pub fn read_two(
    text: &[u8],
    longer: bool,
    one: &mut [i64],
    other: &mut [i64],
) -> Result<(usize, usize), Refusal>
    requires { (length one.old ≡ 3071) × (length other.old ≡ 3071) }
    ensures { ReadsTwo longer text.now result one.new other.new }
{
    if longer || TEXT_MOST < text.len() {
        return Err(Refusal::BadText(TEXT_MOST));
    }
    read_texts(text, one, other)
}

// What the job `cycles` writes for a text: all of it, byte for byte, as specs/CyclesAnswer.antt says.
ghost use Rattle.std.specs.Prelude.{◌≡◌, ◌≤◌, length};
ghost use Rattle.decimal.specs.Writing.{Puts};
ghost use Rattle.cycle_texts.specs.CyclesAnswer.{cycles_answer, cycles_text};
ghost use Rattle.cycle_texts.specs.Inner.Ends.{RunBegins, JudgedTo, cut_refusal, cut_answer, CyclesLeave};

use call::refusal::Refusal;
use cycle_reading::pieces::{digit, digits_at};
use cycle_reading::read_cycles;
use symbol_texts::pair_text::pair_lines;
use text::TEXT_MOST;
use text::line::refusal_line;

// Where the run of digits at the end of a text begins; at the end where it has none.
fn last_run(text: &[u8]) -> usize
    ensures { RunBegins text.now result }
{
    for at in (0..text.len()).rev() {
        if !digit(text[at]) {
            return at + 1;
        }
    }
    0
}

// How much of a text is judged. Where the input goes on behind it, a run of digits at its end may go on as well, and
// is judged only where it says more than 3,066: then it is no index and no point, whatever digits follow.
fn judged_end(text: &[u8], longer: bool) -> usize
    ensures { JudgedTo longer text.now result }
{
    if longer {
        let at = last_run(text);
        let run = digits_at(text, at);
        if run.value <= 3066 {
            return at;
        }
    }
    text.len()
}

// The refusal of an input that goes on, by that of the part that is judged, which ends before `end`. A permutation
// check says nothing of such an input, which is too long.
fn cut_refusal(refused: Refusal, end: usize) -> Refusal
    ensures { result ≡ cut_refusal end refused }
{
    match refused {
        Refusal::PointCount => Refusal::PointCount,
        Refusal::BadCycles(at) if at < end => Refusal::BadCycles(at),
        _ => Refusal::BadCycles(TEXT_MOST),
    }
}

// The answer to an input that goes on, by that of the part that is judged.
fn cut_answer(read: Result<usize, Refusal>, end: usize) -> Result<usize, Refusal>
    ensures { result ≡ cut_answer end read }
{
    match read {
        Ok(_) => Err(Refusal::BadCycles(TEXT_MOST)),
        Err(refusal) => Err(cut_refusal(refusal, end)),
    }
}

// The answer to a text, or to an input that goes on behind it; its tables.
fn read_tables(text: &[u8], longer: bool, s: &mut [u32], r: &mut [u32]) -> Result<usize, Refusal>
    requires { (length s.old ≡ 3066) × (length r.old ≡ 3066) }
    ensures value { result ≡ cycles_answer longer text.now }
    ensures cycles_leave { CyclesLeave longer text.now s.old r.old
        s.new r.new }
{
    let end = judged_end(text, longer);
    let read = read_cycles(&text[..end], s, r);
    if longer {
        return cut_answer(read, end);
    }
    read
}

// The lines for a text, where the slices are long enough.
fn cycles_text(text: &[u8], longer: bool, s: &mut [u32], r: &mut [u32], out: &mut [u8]) -> usize
    requires { (length s.old ≡ 3066) × (length r.old ≡ 3066) × (65536 ≤ length out.old) }
    ensures { Puts (cycles_text longer text.now) 0 result out.old out.new }
{
    let read = read_tables(text, longer, s, r);
    match read {
        Ok(n) => pair_lines(&s[..n], &r[..n], out),
        Err(refusal) => refusal_line(refusal, out),
    }
}

// What the program writes for a text, from the front of `out`, where `longer` says that the input goes on behind the
// text; where it ends.
pub fn answer(text: &[u8], longer: bool, out: &mut [u8]) -> usize
    requires { 65536 ≤ length out.old }
    ensures { Puts (cycles_text longer text.now) 0 result out.old out.new }
{
    let mut s = [0u32; 3066];
    let mut r = [0u32; 3066];
    cycles_text(text, longer, &mut s, &mut r, out)
}

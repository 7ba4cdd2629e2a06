// What the job `tower` writes for a text: all of it, byte for byte, as specs/TowerAnswer.antt says.
ghost use Rattle.std.specs.Prelude.{◌≡◌, ◌≤◌, length, None};
ghost use Rattle.text.specs.Piece.{pieces, first_bad, numbers, place_at};
ghost use Rattle.text.specs.Inner.Inside.{left_by};
ghost use Rattle.decimal.specs.Writing.{Puts};
ghost use Rattle.subgroup_texts.specs.TowerAnswer.{tower_line, entries_from, tower_reading, tower_answer, tower_bytes};

use call::refusal::Refusal;
use decimal::put;
use text::line::refusal_line;
use text::{TEXT_MOST, fill, next_number, survey_of};
use towers::tower;

// The numbers of a text whose pieces are all numbers, `count` of them.
fn read_entries(text: &[u8], count: usize, ns: &mut [i64]) -> Result<usize, Refusal>
    requires { (first_bad (pieces text.now) ≡ None) × (length (pieces text.now) ≡ count)
        × (count ≤ length ns.old) }
    ensures { (result ≡ entries_from (numbers (pieces text.now)) (place_at (pieces text.now) 0)
        (length text.now))
        × (ns.new ≡ left_by result (numbers (pieces text.now)) ns.old) }
{
    let Some(entries) = next_number(text, 0) else {
        return Err(Refusal::BadText(text.len()));
    };
    if entries.value < 0 {
        return Err(Refusal::BadText(entries.at));
    }
    fill(text, count, ns);
    Ok(count)
}

// Reads the numbers of a text, where `longer` says that more was sent than the program's buffer holds. A text of 65,536
// bytes has at most 32,768 pieces.
fn read_tower(text: &[u8], longer: bool, ns: &mut [i64]) -> Result<usize, Refusal>
    requires { length ns.old ≡ 32768 }
    ensures { (result ≡ tower_reading longer text.now)
        × (ns.new ≡ left_by result (numbers (pieces text.now)) ns.old) }
{
    if longer || TEXT_MOST < text.len() {
        return Err(Refusal::BadText(TEXT_MOST));
    }
    let count = survey_of(text).map_err(|at| Refusal::BadText(at))?;
    read_entries(text, count, ns)
}

// The line for an answer.
fn tower_line(answer: Result<(), Refusal>, out: &mut [u8]) -> usize
    requires { 50 ≤ length out.old }
    ensures { Puts (tower_line answer) 0 result out.old out.new }
{
    match answer {
        Ok(()) => put(b"passes\n", out, 0),
        Err(refusal) => refusal_line(refusal, out),
    }
}

// The line for the numbers of a text.
fn tower_numbers(ns: &[i64], out: &mut [u8]) -> usize
    requires { (1 ≤ length ns.now) × (50 ≤ length out.old) }
    ensures { Puts (tower_line (tower_answer ns.now)) 0 result out.old out.new }
{
    let mut w = [0u16; 32768];
    let entries = ns[0].unsigned_abs();
    let answer = tower(entries as usize, &ns[1..], &mut w);
    tower_line(answer, out)
}

// What the program writes for a text, from the front of `out`, where `longer` says that the input goes on behind the
// text; where it ends.
pub fn answer(text: &[u8], longer: bool, out: &mut [u8]) -> usize
    requires { 50 ≤ length out.old }
    ensures { Puts (tower_bytes longer text.now) 0 result out.old out.new }
{
    let mut ns = [0i64; 32768];
    let read = read_tower(text, longer, &mut ns);
    match read {
        Err(refusal) => refusal_line(refusal, out),
        Ok(k) => tower_numbers(&ns[..k], out),
    }
}

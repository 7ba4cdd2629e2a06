// What the job `sheet` writes for a text: all of it, byte for byte, as specs/Printed.antt says
// (docs/CONVENTIONS.md, 10.9).
ghost use Rattle.std.specs.Prelude.{◌≡◌, ◌+◌, ◌*◌, ◌≤◌, length, None, Some};
ghost use Rattle.text.specs.Piece.{pieces, first_bad, numbers};
ghost use Rattle.text.specs.Inner.Inside.{left_by};
ghost use Rattle.decimal.specs.Writing.{Puts};
ghost use Rattle.query_text.specs.Printed.{by_wanted, by_numbers, sheet_reading, printed, sheet_bytes};
ghost use Rattle.query_text.specs.Inner.SheetTable.{printed_row, used, printed_rows};
ghost use Rattle.query_text.specs.Inner.SheetTable.{SheetSpaces, SheetNumbers, LinesRoom};

use crate::word_line;
use call::refusal::Refusal;
use sheets::{ENTRIES, is_bad_count, sheet};
use text::line::{line_of, refusal_line};
use text::{Format, TEXT_MOST, fill, next_number, survey_of, vertex_count, wanted_for};
use word::word_part;

// The numbers of a text whose pieces are all numbers, `count` of them, where a symbol's are the first `wanted`.
fn give_sheet(text: &[u8], wanted: usize, count: usize, ns: &mut [i64]) -> Result<usize, Refusal>
    requires { (first_bad (pieces text.now) ≡ None) × (length (pieces text.now) ≡ count) × (wanted ≤ 3071)
        × (length ns.old ≡ 5119) }
    ensures { (result ≡ by_wanted (Some wanted) count (length text.now))
        × (ns.new ≡ left_by result (numbers (pieces text.now)) ns.old) }
{
    if count < wanted {
        return Err(Refusal::BadText(text.len()));
    }
    if is_bad_count(count - wanted) {
        return Err(Refusal::TooShort(ENTRIES));
    }
    fill(text, count, ns);
    Ok(count)
}

// The same by the first number, which says how many the symbol has.
fn read_counted(text: &[u8], count: usize, ns: &mut [i64]) -> Result<usize, Refusal>
    requires { (first_bad (pieces text.now) ≡ None) × (length (pieces text.now) ≡ count)
        × (length ns.old ≡ 5119) }
    ensures { (result ≡ by_numbers (numbers (pieces text.now)) (length text.now))
        × (ns.new ≡ left_by result (numbers (pieces text.now)) ns.old) }
{
    let Some(first) = next_number(text, 0) else {
        return Err(Refusal::BadText(text.len()));
    };
    let format = Format {
        least: 1,
        most: 1023,
        each: 3,
        more: 2,
    };
    let k = wanted_for(format, first.value).ok_or(Refusal::BadVertexCount)?;
    give_sheet(text, k, count, ns)
}

// Reads the numbers of a text, where `longer` says that more was sent than the program's buffer holds.
fn read_sheet(text: &[u8], longer: bool, ns: &mut [i64]) -> Result<usize, Refusal>
    requires { length ns.old ≡ 5119 }
    ensures { (result ≡ sheet_reading longer text.now)
        × (ns.new ≡ left_by result (numbers (pieces text.now)) ns.old) }
{
    if longer || TEXT_MOST < text.len() {
        return Err(Refusal::BadText(TEXT_MOST));
    }
    let count = survey_of(text).map_err(|at| Refusal::BadText(at))?;
    read_counted(text, count, ns)
}

// The line of the table: a word with its sign, or a refusal; from `at` on.
fn print_line(line: &[i64], letters: &[i16], out: &mut [u8], at: usize) -> usize
    requires { (length line.now ≡ 4) × (at + (7 * used line.now letters.now + 50) ≤ length out.old) }
    ensures puts { Puts (printed_row line.now letters.now) at result
        out.old out.new }
    ensures upper_bound { result ≤ at + (7 * used line.now letters.now + 50) }
{
    let number = line[0].unsigned_abs();
    let place = line[1].unsigned_abs();
    if number != 0 {
        return line_of(b"refused", &[number, place], out, at);
    }
    let n = line[2].unsigned_abs();
    let word = word_part(letters, place as usize, n as usize);
    word_line(0 <= line[3], word, out, at)
}

// The first n lines of the table, one after another.
fn print_lines(lines: &[i64], n: usize, letters: &[i16], out: &mut [u8]) -> usize
    requires { LinesRoom lines.now letters.now n out.old }
    ensures { Puts (printed_rows lines.now letters.now n) 0 result
        out.old out.new }
{
    let mut end = 0;
    for i in 0..n {
        end = print_line(&lines[4 * i..4 * i + 4], letters, out, end);
    }
    end
}

// The answer for the numbers of a text whose symbol is whole.
fn print_sheet(
    ns: &[i64],
    w: &mut [u16],
    lines: &mut [i64],
    letters: &mut [i16],
    out: &mut [u8],
) -> usize
    requires { SheetNumbers ns.now × SheetSpaces w.old lines.old letters.old out.old }
    ensures { Puts (printed ns.now) 0 result out.old out.new }
{
    let v = vertex_count(ns[0]);
    let k = 3 * v + 2;
    match sheet(v, &ns[1..k], &ns[k..], w, lines, letters) {
        Err(refusal) => refusal_line(refusal, out),
        Ok(n) => print_lines(lines, n, letters, out),
    }
}

// The answer for a text, where the slices are long enough.
fn print_text(
    text: &[u8],
    longer: bool,
    ns: &mut [i64],
    w: &mut [u16],
    lines: &mut [i64],
    letters: &mut [i16],
    out: &mut [u8],
) -> usize
    requires { (length ns.old ≡ 5119) × SheetSpaces w.old lines.old letters.old out.old }
    ensures { Puts (sheet_bytes longer text.now) 0 result out.old out.new }
{
    match read_sheet(text, longer, ns) {
        Err(refusal) => refusal_line(refusal, out),
        Ok(k) => print_sheet(&ns[..k], w, lines, letters, out),
    }
}

// What the program writes for a text, from the front of `out`, where `longer` says that the input goes on behind the
// text; where it ends.
pub fn answer(text: &[u8], longer: bool, out: &mut [u8]) -> usize
    requires { 131072 ≤ length out.old }
    ensures { Puts (sheet_bytes longer text.now) 0 result out.old out.new }
{
    let mut numbers = [0i64; 5119];
    let mut w = [0u16; 32768];
    let mut lines = [0i64; 1024];
    let mut letters = [0i16; 16384];
    print_text(
        text,
        longer,
        &mut numbers,
        &mut w,
        &mut lines,
        &mut letters,
        out,
    )
}

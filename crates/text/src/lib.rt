// Text in and text out: here decimal numbers split by blanks are read into a lent slice. The number that a piece is
// (`numeral`), lines (`line`), the first of two texts (`part`) and the text of an input (`input`) have modules of their
// own.
#![tactic(auto)]

ghost use Rattle.std.specs.Prelude.{◌≡◌, ◌+◌, ◌≤◌, ◌++◌, length, take, drop, None};
ghost use Rattle.text.specs.Blank.{is_blank};
ghost use Rattle.text.specs.Piece.{pieces, numbers, first_bad, place_at};
ghost use Rattle.text.specs.Reading.{reading_of, input_of, answer, wanted, vertex_count};
ghost use Rattle.text.specs.Inner.Inside.{left_by, symbol_and};
ghost use Rattle.text.specs.Inner.Inside.{stretch, left, NextNumber, Steps, survey_of, counted_of};

use call::refusal::Refusal;
use numeral::signed;

pub mod input;
pub mod line;
mod numeral;
pub mod part;

// The most bytes that a text may have.
pub const TEXT_MOST: usize = 65536;

// Which first numbers v are in range, and how many numbers a text then has, v among them: v is in range from `least` to
// `most`, and `each * v + more` numbers are wanted.
#[derive(Clone, Copy)]
pub struct Format {
    pub least: u16,
    pub most: u16,
    pub each: u16,
    pub more: u16,
}

// A piece of a text that is a number: the number, where the piece begins and where it ends.
#[derive(Clone, Copy)]
pub struct Number {
    pub value: i64,
    pub at: usize,
    pub end: usize,
}

// Whether a byte is a space, a line feed or a carriage return.
fn blank(b: u8) -> bool
    ensures { result ≡ is_blank b }
{
    b == b' ' || b == b'\n' || b == b'\r'
}

// The end of the stretch of bytes from `from` on that are all blank (`kind` is true), or all not blank (false).
fn stretch_end(text: &[u8], from: usize, kind: bool) -> usize
    requires { from ≤ length text.now }
    ensures { result ≡ from + stretch kind (drop from text.now) }
{
    for i in from..text.len() {
        if blank(text[i]) != kind {
            return i;
        }
    }
    text.len()
}

// The number that stands first in the text from `from` on, or None where no piece is left. Where the first piece is no
// number, the error is where it begins.
pub fn next(text: &[u8], from: usize) -> Result<Option<Number>, usize>
    requires { from ≤ length text.now }
    ensures { Steps text.now from result }
{
    let at = stretch_end(text, from, true);
    if text.len() <= at {
        return Ok(None);
    }
    let end = stretch_end(text, at, false);
    let value = signed(&text[at..end]).ok_or(at)?;
    Ok(Some(Number { value, at, end }))
}

// The same where no piece from there on is bad, by the contract.
pub fn next_number(text: &[u8], from: usize) -> Option<Number>
    requires { (from ≤ length text.now) × (first_bad (left text.now from) ≡ None) }
    ensures { NextNumber text.now from result }
{
    next(text, from).unwrap_or(None)
}

// How many pieces the text has. Where one is no number, the error is where the first such piece begins.
pub fn survey_of(text: &[u8]) -> Result<usize, usize>
    ensures { result ≡ survey_of (pieces text.now) }
{
    let mut from = 0;
    let mut count = 0;
    // Each turn begins where the last piece ended, so that no range counts the turns.
    while let Some(number) = next(text, from)? {
        from = number.end;
        count += 1;
    }
    Ok(count)
}

// Where the piece k begins, counted from 0; 0 where there are not so many. No piece is bad, by the contract.
pub fn place(text: &[u8], k: usize) -> usize
    requires { first_bad (pieces text.now) ≡ None }
    ensures { result ≡ place_at (pieces text.now) k }
{
    let mut from = 0;
    for _i in 0..k {
        let Some(number) = next_number(text, from) else {
            return 0;
        };
        from = number.end;
    }
    let Some(number) = next_number(text, from) else {
        return 0;
    };
    number.at
}

// The first k numbers of the text, at the front of `out`. There are so many, and no piece is bad, by the contract: the
// loop ends by its test.
pub fn fill(text: &[u8], k: usize, out: &mut [i64])
    requires { (first_bad (pieces text.now) ≡ None) × (k ≤ length (pieces text.now)) × (k ≤ length out.old) }
    ensures { out.new ≡ take k (numbers (pieces text.now)) ++ drop k out.old }
{
    let mut from = 0;
    for i in 0..k {
        let Some(number) = next_number(text, from) else {
            return;
        };
        out[i] = number.value;
        from = number.end;
    }
}

// How many numbers a text of the format has that begins with v.
pub fn wanted_for(format: Format, v: i64) -> Option<usize>
    ensures { result ≡ (wanted format v) }
{
    let Ok(n) = usize::try_from(v) else {
        return None;
    };
    if n < usize::from(format.least) || usize::from(format.most) < n {
        return None;
    }
    Some(usize::from(format.each) * n + usize::from(format.more))
}

// Hands on the first k numbers of the text.
fn give(text: &[u8], k: usize, out: &mut [i64]) -> Result<usize, Refusal>
    requires { (first_bad (pieces text.now) ≡ None) × (k ≤ length (pieces text.now)) }
    ensures { (result ≡ answer None k (length out.old))
        × (out.new ≡ left_by result (numbers (pieces text.now)) out.old) }
{
    if out.len() < k {
        return Err(Refusal::TooShort(k));
    }
    fill(text, k, out);
    Ok(k)
}

// Tests the count of a text whose pieces are all numbers, and hands them on. `count` is how many there are.
fn count_and_give(
    text: &[u8],
    format: Format,
    count: usize,
    out: &mut [i64],
) -> Result<usize, Refusal>
    requires { (first_bad (pieces text.now) ≡ None) × (length (pieces text.now) ≡ count) }
    ensures { (result ≡ counted_of format text.now (length out.old))
        × (out.new ≡ left_by result (numbers (pieces text.now)) out.old) }
{
    let Some(first) = next_number(text, 0) else {
        return Err(Refusal::BadText(text.len()));
    };
    let Some(k) = wanted_for(format, first.value) else {
        return give(text, 1, out);
    };
    if count < k {
        return Err(Refusal::BadText(text.len()));
    }
    if k < count {
        return Err(Refusal::BadText(place(text, k)));
    }
    give(text, k, out)
}

// Reads the numbers of a text into the front of `out`. A first pass looks at each piece, and a second one fills `out`,
// so that a refusal leaves it as it was. Refusal 19 goes before the space: a text that is too long, then the first
// piece that is no number, then too few or too many numbers.
pub fn read(text: &[u8], format: Format, out: &mut [i64]) -> Result<usize, Refusal>
    ensures { (result ≡ reading_of format text.now (length out.old))
        × (out.new ≡ left_by result (numbers (pieces text.now)) out.old) }
{
    if TEXT_MOST < text.len() {
        return Err(Refusal::BadText(TEXT_MOST));
    }
    let count = survey_of(text).map_err(|at| Refusal::BadText(at))?;
    count_and_give(text, format, count, out)
}

// The same for a program's text, where `longer` says that more was sent than the program's buffer of 65,536 bytes
// holds.
pub fn read_input(
    text: &[u8],
    longer: bool,
    format: Format,
    out: &mut [i64],
) -> Result<usize, Refusal>
    ensures { (result ≡ input_of longer format text.now (length out.old))
        × (out.new ≡ left_by result (numbers (pieces text.now)) out.old) }
{
    if longer {
        return Err(Refusal::BadText(TEXT_MOST));
    }
    read(text, format, out)
}

// The same for a program's text that is a symbol's, v from 1 to 1,023 and then 3v + 1 numbers, with others behind it:
// `more` counts these, v and the last pairing.
pub fn read_symbol(text: &[u8], longer: bool, more: u16, out: &mut [i64]) -> Result<usize, Refusal>
    ensures { (result ≡ input_of longer (symbol_and more) text.now (length out.old))
        × (out.new ≡ left_by result (numbers (pieces text.now)) out.old) }
{
    read_input(
        text,
        longer,
        Format {
            least: 1,
            most: 1023,
            each: 3,
            more: more,
        },
        out,
    )
}

// The first number of a text as a number of vertices.
pub fn vertex_count(x: i64) -> usize
    ensures { result ≡ vertex_count x }
{
    usize::try_from(x).unwrap_or(0)
}

// Cycle notation read: the index and the cycles of S and R, as tables (specs/Reading.antt).
//
// A reader goes through the pieces of the text with one state for each thing that may come next, once with a semicolon
// to come and once without; the place where the second of them is lost is the one where the text leaves the form.
#![tactic(auto)]

ghost use Rattle.std.specs.Prelude.{◌≡◌, true, false, [], ◌++◌, ◌+◌, ◌<◌, ◌≤◌, length, get_or};
ghost use Rattle.call.specs.Call.{asks, stores};
ghost use Rattle.call.specs.Inner.Fills.{Fills, made_if};
ghost use Rattle.permutations.specs.Check.{pair_check};
ghost use Rattle.cycle_notation.specs.Piece.{digit_byte};
ghost use Rattle.cycle_notation.specs.Inner.Reader.{verdict_of};
ghost use Rattle.cycle_notation.specs.Inner.Stores.{identity};
ghost use Rattle.cycle_reading.specs.Reading.{read_s, read_steps};
ghost use Rattle.cycle_reading.specs.Inner.Phases.{first_of_r};
ghost use Rattle.cycle_reading.specs.Inner.Hand.{pieces_left};
ghost use Rattle.cycle_reading.specs.Inner.PartRun.{run_from, PartRead};
ghost use Rattle.cycle_reading.specs.Inner.Alone.{alone_of, either, AloneRead, SecondRead};
ghost use Rattle.cycle_reading.specs.Inner.Front.{BlanksTo, VerdictRead};

use call::refusal::Refusal;
use phases::{Phase, Stop};
use pieces::{digit, digits_at, piece_at};
use points::{Part, take_piece};

mod phases;
pub mod pieces;
mod points;

// Room for a table of each index.
type Table = [u32; 3066];

// A whole run of digits as its number, or one other byte.
#[derive(Clone, Copy)]
pub enum Piece {
    Number(usize),
    Blank,
    Opening,
    Closing,
    Comma,
    Semicolon,
    Another,
}

// A piece, and where it ends. No one type with `Digits`: a type parameter for what was read is no plainer than the two
// names of it.
#[derive(Clone, Copy)]
pub struct Found {
    pub piece: Piece,
    pub to: usize,
}

// The number that a run of digits says, and where the run ends.
#[derive(Clone, Copy)]
pub struct Digits {
    pub value: u64,
    pub to: usize,
}

// How a permutation was read: a piece begins here after which no text can go on; it was over before the piece that
// begins here; or the text has come to its end, where it may be over or not.
#[derive(Clone, Copy)]
enum PartEnd {
    Lost(usize),
    Over(usize),
    Ended(bool),
}

// The table that moves nothing.
fn fill_identity(table: &mut Table)
    ensures { table.new ≡ identity 3066 }
{
    for (i, entry) in table.iter_mut().enumerate() {
        // `as`: an index below 3,066, where `u32::try_from` would have an error that never comes.
        *entry = i as u32;
    }
}

// A text whose index is n, read with a semicolon to come between S and R or without one.
#[derive(Clone, Copy)]
struct Reader<'a> {
    text: &'a [u8],
    n: usize,
    semi: bool,
    ghost in_range: { n ≤ 3066 },
}

impl Reader<'_> {
    // Reads a permutation from `from` on, where the phase is `first`: up to the piece at which it is lost, to the one
    // before which it was over, or to the text's end.
    fn read_part(self, from: usize, first: Phase, table: &mut Table) -> PartEnd
        requires { from ≤ length self.text.now }
        ensures { PartRead (run_from self.entry.semi self.entry.n first (pieces_left self.entry.text.now from)) result
            table.new }
    {
        let mut marks = [false; 3066];
        fill_identity(table);
        let mut part = Part {
            phase: first,
            used: 0,
            cycle: None,
        };
        let mut at = from;
        // `while`: each piece says where the next one begins.
        while at < self.text.len() {
            let found = piece_at(self.text, at);
            match take_piece(self.semi, self.n, found.piece, part, &mut marks, table) {
                Ok(next) => part = next,
                Err(Stop::Lost) => return PartEnd::Lost(at),
                Err(Stop::Over) => return PartEnd::Over(at),
            }
            at = found.to;
        }
        PartEnd::Ended(part.phase.is_quiet())
    }

    // Reads R from behind the piece that begins at `at`.
    fn read_second(self, at: usize, r: &mut Table) -> Result<(), usize>
        requires { at < length self.text.now }
        ensures { SecondRead (run_from self.entry.semi self.entry.n (first_of_r self.entry.semi)
            (pieces_left self.entry.text.now (at + 1))) (length self.entry.text.now) result r.new }
    {
        match self.read_part(at + 1, Phase::first_of_r(self.semi), r) {
            PartEnd::Lost(at) | PartEnd::Over(at) => Err(at),
            PartEnd::Ended(true) => Ok(()),
            PartEnd::Ended(false) => Err(self.text.len()),
        }
    }

    // Reads S from behind the index, and then R.
    fn read_alone(self, from: usize, s: &mut Table, r: &mut Table) -> Result<(), usize>
        requires { from ≤ length self.text.now }
        ensures { AloneRead (alone_of self.entry.semi self.entry.n self.entry.text.now from) result s.new r.new }
    {
        match self.read_part(from, Phase::Start, s) {
            PartEnd::Lost(at) => Err(at),
            PartEnd::Ended(_) => Err(self.text.len()),
            PartEnd::Over(at) => self.read_second(at, r),
        }
    }
}

// Both readers, behind the index: the first that comes through decides. Where none does, the later place counts.
fn read_both(text: &[u8], from: usize, n: usize, s: &mut Table, r: &mut Table) -> Result<(), usize>
    requires { (from ≤ length text.now) × (n ≤ 3066) }
    ensures { AloneRead (either (alone_of true n text.now from) (alone_of false n text.now from)) result s.new r.new }
{
    let with_semicolon = Reader {
        text,
        n,
        semi: true,
    };
    let Err(x) = with_semicolon.read_alone(from, s, r) else {
        return Ok(())
    };
    let without = Reader {
        text,
        n,
        semi: false,
    };
    let Err(y) = without.read_alone(from, s, r) else {
        return Ok(())
    };
    Err(x.max(y))
}

// Where the blanks at the front end.
fn skip_blanks(text: &[u8]) -> usize
    ensures { BlanksTo text.now result }
{
    for (at, b) in text.iter().enumerate() {
        if *b != b' ' {
            return at;
        }
    }
    text.len()
}

// The text from its index on, which begins with a digit at `at`.
fn read_index(text: &[u8], at: usize, s: &mut Table, r: &mut Table) -> Result<usize, Refusal>
    requires { BlanksTo text.now at × (at < length text.now) × (digit_byte (get_or text.now at 0) ≡ true) }
    ensures { VerdictRead (verdict_of text.now) result s.new r.new }
{
    let run = digits_at(text, at);
    // `as`: there is no `From` from `u64` to `usize`, and `TryFrom` would have an error that never comes.
    let n = run.value as usize;
    if n < 1 || 3066 < n {
        return Err(Refusal::PointCount);
    }
    match read_both(text, run.to, n, s, r) {
        Ok(()) => Ok(n),
        Err(place) => Err(Refusal::BadCycles(place)),
    }
}

// The index of a text, and the tables of one that is right.
fn read_text(text: &[u8], s: &mut Table, r: &mut Table) -> Result<usize, Refusal>
    ensures { VerdictRead (verdict_of text.now) result s.new r.new }
{
    let at = skip_blanks(text);
    if at < text.len() && digit(text[at]) {
        return read_index(text, at, s, r);
    }
    Err(Refusal::BadCycles(at))
}

// The tables a and b, checked and put at the front of s and r, where these have room.
fn give(a: &[u32], b: &[u32], s: &mut [u32], r: &mut [u32]) -> Result<usize, Refusal>
    requires { length b.now ≡ length a.now }
    ensures { Fills (asks (pair_check a.now b.now) ++ stores a.now s ++ stores b.now r)
        (made_if (length a.now)) result }
{
    permutations::check(a, b)?;
    let n = a.len();
    if s.len() < n || r.len() < n {
        return Err(Refusal::TooShort(n));
    }
    s[..n].copy_from_slice(a);
    r[..n].copy_from_slice(b);
    Ok(n)
}

// The tables of S and R from a text in cycle notation, at the front of s and r; the number of points.
pub fn read_cycles(text: &[u8], s: &mut [u32], r: &mut [u32]) -> Result<usize, Refusal>
    ensures { Fills (read_steps text.now s r) (made_if (length (read_s text.now))) result }
{
    let mut a = [0u32; 3066];
    let mut b = [0u32; 3066];
    let n = read_text(text, &mut a, &mut b)?;
    give(&a[..n], &b[..n], s, r)
}

// What the program `listing` writes for a text: all of it, byte for byte, as specs/Listing.antt says
// (docs/CONVENTIONS.md, 10.5).
#![tactic(auto)]

ghost use Rattle.std.specs.Prelude.{◌≡◌, ◌*◌, ◌≤◌, length};
ghost use Rattle.text.specs.Input.{AnswersInput};
ghost use Rattle.call.specs.Space.{work_length};
ghost use Rattle.decimal.specs.Writing.{Puts};
ghost use Rattle.symbol.specs.Symbol.{IsSymbol};
ghost use Rattle.pairing.specs.Generator.{leaders, generator_table};
ghost use Rattle.listing_text.specs.Listing.{listed_lines, listing_lines, listing_of, ListingMeans};
ghost use Rattle.listing_text.specs.Inner.Parts.{ListingSpaces, parts_of};

use coset::survey;
use figures::FigureRecord;
use lines::{figure_lines, generator_part, table_lines};
use pairing::generator::generators;
use text::input::{Input, text_end};
use text::line::refusal_line;
use text::{read_symbol, vertex_count};

mod lines;

// The listing of a symbol with the figures f: its g generators are in the rows, its widths and tables in the work
// space.
fn list_parts(f: FigureRecord, rows: &[i64], g: usize, w: &[u16], out: &mut [u8]) -> usize
    requires { (f.index ≤ 4096) × (f.cusps ≤ 4096) × (g ≤ 1024) × (5 * g ≤ length rows.now)
        × (work_length ≤ length w.now) × (212992 ≤ length out.old) }
    ensures { Puts (parts_of f g rows.now w.now)
        0 result out.old out.new }
{
    let first = figure_lines(f, w, out);
    let second = generator_part(rows, g, out, first);
    table_lines(w, f.index, out, second)
}

// The listing of an accepted symbol, whose g generators are in the rows.
fn list_accepted(
    v: usize,
    t: &[i64],
    rows: &[i64],
    g: usize,
    w: &mut [u16],
    out: &mut [u8],
) -> usize
    requires { IsSymbol v t.now × (g ≡ length (leaders v t.now)) × (rows.now ≡ generator_table v t.now)
        × (work_length ≤ length w.old) × (212992 ≤ length out.old) }
    ensures { Puts (listed_lines v t.now) 0 result out.old out.new }
{
    let f = survey(v, t, w);
    list_parts(f, rows, g, w, out)
}

// The listing of the symbol in t, or its refusal.
fn list_symbol(v: usize, t: &[i64], w: &mut [u16], table: &mut [i64], out: &mut [u8]) -> usize
    requires { ListingSpaces w.old table.old out.old }
    ensures { Puts (listing_lines v t.now) 0 result out.old out.new }
{
    match generators(v, t, w, table) {
        Err(refused) => refusal_line(refused, out),
        Ok(g) => {
            let end = 5 * g;
            list_accepted(v, t, &table[..end], g, w, out)
        }
    }
}

// What a text gets, where the slices are long enough.
fn list_text(
    text: &[u8],
    longer: bool,
    numbers: &mut [i64],
    w: &mut [u16],
    table: &mut [i64],
    out: &mut [u8],
) -> usize
    requires { (length numbers.old ≡ 3071) × ListingSpaces w.old table.old out.old }
    ensures { Puts (listing_of longer text.now) 0 result out.old out.new }
{
    match read_symbol(text, longer, 2, numbers) {
        Err(refusal) => refusal_line(refusal, out),
        Ok(k) => {
            let v = vertex_count(numbers[0]);
            list_symbol(v, &numbers[1..k], w, table, out)
        }
    }
}

// What the program writes for an input, whose bytes stand at the front of the buffer, from the front of `out`; where
// it ends: at 0, with nothing changed, where the input could not be read.
pub fn list(buffer: &[u8], input: Input, out: &mut [u8; 212992]) -> usize
    ensures { AnswersInput listing_of ListingMeans buffer.now result out.old out.new
        input }
{
    let Input::Read(n, longer) = input else {
        return 0;
    };
    let end = text_end(buffer, n);
    let mut numbers = [0i64; 3071];
    let mut w = [0u16; 32768];
    let mut table = [0i64; 5120];
    list_text(
        &buffer[..end],
        longer,
        &mut numbers,
        &mut w,
        &mut table,
        out,
    )
}

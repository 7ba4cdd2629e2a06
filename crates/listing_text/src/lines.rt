// The lines of a listing, as bytes in a lent slice.
ghost use Rattle.std.specs.Prelude.{◌≡◌, map, ◌+◌, ◌*◌, ◌≤◌, length};
ghost use Rattle.call.specs.Space.{work_length, entries};
ghost use Rattle.numbering.specs.Inner.Space.{S_TABLE, WIDTHS, R_TABLE, T_TABLE};
ghost use Rattle.text.specs.Line.{natural, line};
ghost use Rattle.decimal.specs.Writing.{Puts};
ghost use Rattle.listing_text.specs.Listing.{figure_line, count_lines, cusp_lines};
ghost use Rattle.listing_text.specs.Listing.{figure_lines, kind_word, generator_line};
ghost use Rattle.listing_text.specs.Listing.{generator_lines, generator_part, table_lines};

use call::refusal::Refusal;
use decimal::put;
use figures::FigureRecord;
use numbering::{R_TABLE, S_TABLE, T_TABLE, WIDTHS};
use text::line::{Decimal, line_of};

// A figure's value, or its refusal.
fn figure_line(name: &[u8], figure: Result<u64, Refusal>, out: &mut [u8], at: usize) -> usize
    requires { at + (length name.now + 51) ≤ length out.old }
    ensures { Puts (figure_line name.now figure) at result out.old out.new
        × (result ≤ at + (length name.now + 51)) }
{
    match figure {
        Ok(x) => line_of(name, &[x], out, at),
        Err(refusal) => {
            let first = put(name, out, at);
            let numbers = [refusal.number(), refusal.place() as u64];
            line_of(b" refused", &numbers, out, first)
        }
    }
}

// Index, elliptic counts and the number of cusps.
fn count_lines(index: usize, e2: usize, e3: usize, cusps: usize, out: &mut [u8]) -> usize
    requires { 105 ≤ length out.old }
    ensures { Puts (count_lines index e2 e3 cusps) 0 result out.old out.new × (result ≤ 105) }
{
    let first = line_of(b"index", &[index], out, 0);
    let second = line_of(b"elliptic", &[e2, e3], out, first);
    line_of(b"cusps", &[cusps], out, second)
}

// The n entries of the table at `off` in the work space, as one line.
fn table_line(name: &[u8], w: &[u16], off: usize, n: usize, out: &mut [u8], at: usize) -> usize
    requires { (off + n ≤ length w.now) × (at + (length name.now + 6 * n + 21) ≤ length out.old) }
    ensures { Puts (line name.now (map natural (entries off n w.now))) at result
        out.old out.new × (result ≤ at + (length name.now + 6 * n + 1)) }
{
    let end = off + n;
    line_of(name, &w[off..end], out, at)
}

// The widths of the k cusps, which are in the work space, genus and level.
fn cusp_lines(
    w: &[u16],
    k: usize,
    genus: Result<u64, Refusal>,
    level: Result<u64, Refusal>,
    out: &mut [u8],
    at: usize,
) -> usize
    requires { (WIDTHS + k ≤ length w.now) × (at + (6 * k + 150) ≤ length out.old) }
    ensures { Puts (cusp_lines (entries WIDTHS k w.now) genus level) at result out.old
        out.new × (result ≤ at + (6 * k + 150)) }
{
    let first = table_line(b"widths", w, WIDTHS, k, out, at);
    let second = figure_line(b"genus", genus, out, first);
    figure_line(b"level", level, out, second)
}

// The word of a kind of generator, with a space in front. The tables that a user lends keep the kinds as numbers.
fn kind_word(kind: i64) -> &'static [u8]
    ensures word { result.now ≡ kind_word kind }
    ensures short { length result.now ≤ 5 }
{
    match kind {
        1 => b" free",
        2 => b" even",
        _ => b" odd",
    }
}

// The generator with the number j, from its row in the table: its kind and its entries.
fn generator_line(j: usize, row: &[i64], out: &mut [u8], at: usize) -> usize
    requires { (length row.now ≡ 5) × (at + 110 ≤ length out.old) }
    ensures { Puts (generator_line j row.now) at result out.old out.new
        × (result ≤ at + 110) }
{
    let first = j.put(out, at);
    line_of(kind_word(row[0]), &row[1..], out, first)
}

// The first n generators of the table.
fn generator_lines(table: &[i64], n: usize, out: &mut [u8], at: usize) -> usize
    requires { (n ≤ 1024) × (5 * n ≤ length table.now) × (at + 110 * n ≤ length out.old) }
    ensures { Puts (generator_lines n table.now) at result out.old out.new
        × (result ≤ at + 110 * n) }
{
    let mut end = at;
    for i in 0..n {
        let from = 5 * i;
        let to = from + 5;
        end = generator_line(i + 1, &table[from..to], out, end);
    }
    end
}

// How many generators there are, and their lines.
pub(crate) fn generator_part(table: &[i64], n: usize, out: &mut [u8], at: usize) -> usize
    requires { (n ≤ 1024) × (5 * n ≤ length table.now) × (at + (110 * n + 32) ≤ length out.old) }
    ensures { Puts (generator_part n table.now) at result out.old out.new
        × (result ≤ at + (110 * n + 32)) }
{
    let first = line_of(b"generators", &[n], out, at);
    generator_lines(table, n, out, first)
}

// The tables of S, R and T of n cosets, which are in the work space.
pub(crate) fn table_lines(w: &[u16], n: usize, out: &mut [u8], at: usize) -> usize
    requires { (n ≤ 4096) × (work_length ≤ length w.now) × (at + 73794 ≤ length out.old) }
    ensures { Puts
        (table_lines (entries S_TABLE n w.now) (entries R_TABLE n w.now)
        (entries T_TABLE n w.now)) at result out.old out.new }
{
    let first = table_line(b"S", w, S_TABLE, n, out, at);
    let second = table_line(b"R", w, R_TABLE, n, out, first);
    table_line(b"T", w, T_TABLE, n, out, second)
}

// Index to level, with the widths that are in the work space.
pub(crate) fn figure_lines(f: FigureRecord, w: &[u16], out: &mut [u8]) -> usize
    requires { (f.cusps ≤ 4096) × (work_length ≤ length w.now) × (24831 ≤ length out.old) }
    ensures { Puts (figure_lines f (entries WIDTHS f.cusps w.now)) 0 result out.old
        out.new × (result ≤ 24831) }
{
    let first = count_lines(f.index, f.e2, f.e3, f.cusps, out);
    cusp_lines(w, f.cusps, f.genus, f.level, out, first)
}

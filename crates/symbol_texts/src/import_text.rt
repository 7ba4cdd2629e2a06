// What the programs `import` and `import_wide` write for a text: all of it, byte for byte, as specs/ImportAnswer.antt
// says. The one follows the rule, the other the wide rule (`wide`).
ghost use Rattle.std.specs.Prelude.{◌≡◌, map, ◌+◌, ◌*◌, ◌≤◌, length};
ghost use Rattle.decimal.specs.Writing.{Puts};
ghost use Rattle.import_symbol.specs.Answer.{order_by};
ghost use Rattle.symbol_texts.specs.ImportAnswer.{number_line, symbol_lines, table_point, tables_in};
ghost use Rattle.symbol_texts.specs.ImportAnswer.{request_of, import_lines, imported_by};
ghost use Rattle.symbol_texts.specs.Inner.ImportSpaces.{filled, numbers_left, TablesRead};

use crate::pair_text::count_line;
use call::refusal::Refusal;
use decimal::put;
use import_call::import_by;
use text::line::{Decimal, put_each, refusal_line};
use text::{Format, read_input};

// A line of numbers.
fn number_line(xs: &[i64], out: &mut [u8], at: usize) -> usize
    requires { at + (21 * length xs.now + 1) ≤ length out.old }
    ensures { Puts (number_line xs.now) at result out.old out.new
        × (result ≤ at + (21 * length xs.now + 1)) }
{
    if xs.len() == 0 {
        return put(b"\n", out, at);
    }
    let first = xs[0].put(out, at);
    let second = put_each(&xs[1..], out, first);
    put(b"\n", out, second)
}

// A symbol of v vertices.
pub fn symbol_lines(v: usize, table: &[i64], out: &mut [u8]) -> usize
    requires { (v ≤ 1023) × (length table.now ≡ 3 * v + 1) × (65536 ≤ length out.old) }
    ensures { Puts (symbol_lines v table.now) 0 result out.old out.new }
{
    let first = count_line(v, out);
    let middle = 2 * v;
    let second = number_line(&table[..middle], out, first);
    number_line(&table[middle..], out, second)
}

// A number of the text as an entry of a table.
fn point_of(x: i64) -> u32
    ensures { result ≡ table_point x }
{
    u32::try_from(x).unwrap_or(u32::MAX)
}

// The numbers as the entries of a table, from its front.
fn fill_points(numbers: &[i64], out: &mut [u32])
    requires { length numbers.now ≤ length out.old }
    ensures { out.new ≡ filled (map table_point numbers.now) out.old }
{
    for (i, number) in numbers.iter().enumerate() {
        out[i] = point_of(*number);
    }
}

// The lines for two tables.
fn import_lines(s: &[u32], r: &[u32], wide: bool, out: &mut [u8]) -> usize
    requires { 65536 ≤ length out.old }
    ensures { Puts (import_lines (order_by wide) s.now r.now) 0 result out.old
        out.new }
{
    let mut w = [0u16; 32768];
    let mut table = [0i64; 3070];
    let made = import_by(s, r, &mut w, &mut table, wide);
    match made {
        Ok(v) => {
            let end = 3 * v + 1;
            symbol_lines(v, &table[..end], out)
        }
        Err(refusal) => refusal_line(refusal, out),
    }
}

// The tables of S and R in the numbers of a text, which are the index and then the entries of S and of R: how many
// points they have; or 12 where the index stands alone.
fn fill_tables(numbers: &[i64], s: &mut [u32], r: &mut [u32]) -> Result<usize, Refusal>
    requires { (1 ≤ length numbers.now) × (length numbers.now ≤ 6133)
        × (3066 ≤ length s.old) × (3066 ≤ length r.old) }
    ensures { TablesRead (tables_in numbers.now) s.old r.old result
        s.new r.new }
{
    let k = numbers.len();
    if k < 3 {
        return Err(Refusal::PointCount);
    }
    let n = (k - 1) / 2;
    let middle = n + 1;
    let end = middle + n;
    fill_points(&numbers[1..middle], s);
    fill_points(&numbers[middle..end], r);
    Ok(n)
}

// The same for a text, or for one that is longer than the buffer.
pub fn read_tables(
    text: &[u8],
    longer: bool,
    numbers: &mut [i64],
    s: &mut [u32],
    r: &mut [u32],
) -> Result<usize, Refusal>
    requires { (length numbers.old ≡ 6133) × (3066 ≤ length s.old) × (3066 ≤ length r.old) }
    ensures numbers_after { numbers.new ≡ numbers_left longer text.now numbers.old }
    ensures tables_read { TablesRead (request_of longer text.now) s.old r.old result
        s.new r.new }
{
    let format = Format {
        least: 1,
        most: 3066,
        each: 2,
        more: 1,
    };
    let k = read_input(text, longer, format, numbers)?;
    fill_tables(&numbers[..k], s, r)
}

// What the program writes for a text, by the leftmost rule or by the wide one, from the front of `out`, where `longer`
// says that the input goes on behind the text; where it ends.
pub fn answer(text: &[u8], longer: bool, wide: bool, out: &mut [u8]) -> usize
    requires { 65536 ≤ length out.old }
    ensures { Puts (imported_by (order_by wide) longer text.now) 0 result out.old
        out.new }
{
    let mut numbers = [0i64; 6133];
    let mut s = [0u32; 3066];
    let mut r = [0u32; 3066];
    let read = read_tables(text, longer, &mut numbers, &mut s, &mut r);
    match read {
        Err(refusal) => refusal_line(refusal, out),
        Ok(n) => import_lines(&s[..n], &r[..n], wide, out),
    }
}

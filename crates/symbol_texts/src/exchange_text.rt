// What the job `exchange` writes for a text: all of it, byte for byte, as specs/ExchangeAnswer.antt says.
ghost use Rattle.std.specs.Prelude.{◌≡◌, ◌≤◌, length};
ghost use Rattle.decimal.specs.Writing.{Puts};
ghost use Rattle.symbol_texts.specs.ExchangeAnswer.{exchange_lines, exchange_lines_of, exchanged_text};

use crate::import_text::symbol_lines;
use call::refusal::Refusal;
use partner_exchange::exchange;
use text::line::refusal_line;
use text::{read_symbol, vertex_count};

// The lines for a symbol and two labels: the exchanged symbol, or the refusal.
fn exchange_lines(v: usize, t: &[i64], x: i64, y: i64, table: &mut [i64], out: &mut [u8]) -> usize
    requires { (length table.old ≡ 3070) × (65536 ≤ length out.old) }
    ensures { Puts (exchange_lines v t.now x y) 0 result out.old out.new }
{
    let made = exchange(v, t, x, y, table);
    match made {
        Ok(n) => {
            let end = 3 * n + 1;
            symbol_lines(n, &table[..end], out)
        }
        Err(refusal) => refusal_line(refusal, out),
    }
}

// The same for the numbers of a text.
fn exchange_numbers(ns: &[i64], table: &mut [i64], out: &mut [u8]) -> usize
    requires { (length table.old ≡ 3070) × (65536 ≤ length out.old) }
    ensures { Puts (exchange_lines_of ns.now) 0 result out.old out.new }
{
    let k = ns.len();
    if k < 4 {
        return refusal_line(Refusal::BadVertexCount, out);
    }
    let v = vertex_count(ns[0]);
    let end = k - 2;
    exchange_lines(v, &ns[1..end], ns[end], ns[end + 1], table, out)
}

// The same for a text, where the slices are long enough.
fn exchange_text(
    text: &[u8],
    longer: bool,
    numbers: &mut [i64],
    table: &mut [i64],
    out: &mut [u8],
) -> usize
    requires { (length numbers.old ≡ 3073) × (length table.old ≡ 3070)
        × (65536 ≤ length out.old) }
    ensures { Puts (exchanged_text longer text.now) 0 result out.old out.new }
{
    let read = read_symbol(text, longer, 4, numbers);
    match read {
        Err(refusal) => refusal_line(refusal, out),
        Ok(k) => exchange_numbers(&numbers[..k], table, out),
    }
}

// What the program writes for a text, from the front of `out`, where `longer` says that the input goes on behind the
// text; where it ends.
pub fn answer(text: &[u8], longer: bool, out: &mut [u8]) -> usize
    requires { 65536 ≤ length out.old }
    ensures { Puts (exchanged_text longer text.now) 0 result out.old out.new }
{
    let mut numbers = [0i64; 3073];
    let mut table = [0i64; 3070];
    exchange_text(text, longer, &mut numbers, &mut table, out)
}

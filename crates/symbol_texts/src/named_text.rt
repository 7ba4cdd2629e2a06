// What the job `named` writes for a text: all of it, byte for byte, as specs/NamedAnswer.antt says.
ghost use Rattle.std.specs.Prelude.{◌≡◌, ◌≤◌, length};
ghost use Rattle.decimal.specs.Writing.{Puts};
ghost use Rattle.symbol_texts.specs.NamedAnswer.{group_in, made_by, is_over, order_for};
ghost use Rattle.symbol_texts.specs.NamedAnswer.{group_lines, request_lines, named_bytes};
ghost use Rattle.symbol_texts.specs.Inner.Front.{SymbolFront};

use crate::import_text::symbol_lines;
use call::refusal::Refusal;
use named_groups::named_symbol_by;
use text::line::refusal_line;
use text::{Format, read_input, vertex_count};

// Whether an answer is refusal 16.
fn is_over(made: Result<usize, Refusal>) -> bool
    ensures { result ≡ is_over made }
{
    matches!(made, Err(Refusal::EntryTooLarge(_)))
}

// The symbol of a group by the rule; where that is refused with 16, by the wide rule.
fn group_symbol(k: u64, n: u64, w: &mut [u16], table: &mut [i64]) -> Result<usize, Refusal>
    requires { (length w.old ≡ 32768) × (length table.old ≡ 3070) }
    ensures value { result ≡ made_by (order_for k n) k n }
    ensures symbol_front { SymbolFront k n result table.new }
{
    let first = named_symbol_by(k, n, w, table, false);
    if is_over(first) {
        return named_symbol_by(k, n, w, table, true);
    }
    first
}

// The lines for a group.
fn group_lines(k: u64, n: u64, out: &mut [u8]) -> usize
    requires { 65536 ≤ length out.old }
    ensures { Puts (group_lines k n) 0 result out.old out.new }
{
    let mut w = [0u16; 32768];
    let mut table = [0i64; 3070];
    let made = group_symbol(k, n, &mut w, &mut table);
    match made {
        Ok(v) => {
            let end = 3 * v + 1;
            symbol_lines(v, &table[..end], out)
        }
        Err(refusal) => refusal_line(refusal, out),
    }
}

// The lines for the numbers of a text: the family's number and N.
fn group_numbers(numbers: &[i64], out: &mut [u8]) -> usize
    requires { 65536 ≤ length out.old }
    ensures { Puts (request_lines (group_in numbers.now)) 0 result out.old out.new }
{
    if numbers.len() < 2 {
        return refusal_line(Refusal::BadLevel, out);
    }
    let k = vertex_count(numbers[0]) as u64;
    let n = vertex_count(numbers[1]) as u64;
    group_lines(k, n, out)
}

// What the program writes for a text, from the front of `out`, where `longer` says that the input goes on behind the
// text; where it ends.
pub fn answer(text: &[u8], longer: bool, out: &mut [u8]) -> usize
    requires { 65536 ≤ length out.old }
    ensures { Puts (named_bytes longer text.now) 0 result out.old out.new }
{
    let mut numbers = [0i64; 2];
    let read = read_input(
        text,
        longer,
        Format {
            least: 0,
            most: 2,
            each: 0,
            more: 2,
        },
        &mut numbers,
    );
    match read {
        Err(refusal) => refusal_line(refusal, out),
        Ok(j) => group_numbers(&numbers[..j], out),
    }
}

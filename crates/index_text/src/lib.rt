// What the program `index_table` writes: all of it, byte for byte, as specs/Lines.antt says.
#![tactic(auto)]

ghost use Rattle.std.specs.Prelude.{◌+◌, ◌*◌, ◌≤◌, length};
ghost use Rattle.text.specs.Input.{Prints};
ghost use Rattle.decimal.specs.Writing.{Puts};
ghost use Rattle.congruence.specs.Inner.Common.{Modulus};
ghost use Rattle.index_text.specs.Lines.{entry_line, entry_lines, constant_lines};

use congruence::modular::index_of_gamma0;
use decimal::put;
use text::line::Decimal;

// The line for n.
fn put_entry(n: u64, out: &mut [u8], at: usize) -> usize
    requires { Modulus n × (at + 26 ≤ length out.old) }
    ensures { Puts (entry_line n) at result out.old out.new × (result ≤ at + 26) }
{
    let first = put(b"    ", out, at);
    let second = index_of_gamma0(n).put(out, first);
    put(b",\n", out, second)
}

// The lines for n from 1 to 1,000.
fn put_entries(out: &mut [u8], at: usize) -> usize
    requires { at + 26000 ≤ length out.old }
    ensures { Puts (entry_lines 1000) at result out.old out.new × (result ≤ at + 26000) }
{
    let mut end = at;
    for n in 1..=1000 {
        end = put_entry(n, out, end);
    }
    end
}

// The lines of the constant, from the front of `out`; where they end.
pub fn constant_lines(out: &mut [u8; 32768]) -> usize
    ensures { Prints constant_lines result out.old out.new }
{
    let first = put(b"pub const INDEX: [u16; 1000] = [\n", out, 0);
    let second = put_entries(out, first);
    put(b"];\n", out, second)
}

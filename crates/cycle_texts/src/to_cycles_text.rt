// What the job `to-cycles` writes for a text: all of it, byte for byte, as specs/ToCyclesAnswer.antt says.
ghost use Rattle.std.specs.Prelude.{◌≡◌, ◌≤◌, length};
ghost use Rattle.decimal.specs.Writing.{Puts};
ghost use Rattle.cycle_texts.specs.ToCyclesAnswer.{export_line, to_cycles_text};

use cycle_writing::write_cycles;
use decimal::put;
use symbol_texts::import_text::read_tables;
use text::line::refusal_line;

// The line for two tables: their export, or the refusal.
fn export_line(s: &[u32], r: &[u32], out: &mut [u8]) -> usize
    requires { 65537 ≤ length out.old }
    ensures { Puts (export_line s.now r.now) 0 result out.old out.new }
{
    let made = write_cycles(s, r, out);
    match made {
        Ok(n) => put(b"\n", out, n),
        Err(refusal) => refusal_line(refusal, out),
    }
}

// The same for a text, where the slices are long enough.
fn to_cycles_text(
    text: &[u8],
    longer: bool,
    numbers: &mut [i64],
    s: &mut [u32],
    r: &mut [u32],
    out: &mut [u8],
) -> usize
    requires { (length numbers.old ≡ 6133) × (3066 ≤ length s.old) × (3066 ≤ length r.old)
        × (65537 ≤ length out.old) }
    ensures { Puts (to_cycles_text longer text.now) 0 result out.old out.new }
{
    let read = read_tables(text, longer, numbers, s, r);
    match read {
        Err(refusal) => refusal_line(refusal, out),
        Ok(n) => export_line(&s[..n], &r[..n], out),
    }
}

// What the program writes for a text, from the front of `out`, where `longer` says that the input goes on behind the
// text; where it ends.
pub fn answer(text: &[u8], longer: bool, out: &mut [u8]) -> usize
    requires { 65537 ≤ length out.old }
    ensures { Puts (to_cycles_text longer text.now) 0 result out.old out.new }
{
    let mut numbers = [0i64; 6133];
    let mut s = [0u32; 3066];
    let mut r = [0u32; 3066];
    to_cycles_text(text, longer, &mut numbers, &mut s, &mut r, out)
}

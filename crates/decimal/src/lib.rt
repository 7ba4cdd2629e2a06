// Numbers in decimal form, and other bytes, written into a lent slice (specs/Decimal.antt, specs/Writing.antt).
#![tactic(auto)]

ghost use Rattle.std.specs.Prelude.{◌≡◌, ◌+◌, ◌≤◌, length, drop, nat_abs};
ghost use Rattle.decimal.specs.Decimal.{digits, decimal_of};
ghost use Rattle.decimal.specs.Writing.{written_of, standing, Puts};

use call::refusal::Refusal;

// Puts the bytes into `out` from `at` on, where they fit by the contract; where they end.
pub fn put(bytes: &[u8], out: &mut [u8], at: usize) -> usize
    requires { at + length bytes.now ≤ length out.old }
    ensures { Puts bytes.now at result out.old out.new }
{
    let end = at + bytes.len();
    out[at..end].copy_from_slice(bytes);
    end
}

// Copies the bytes into `out` from `at` on, where they fit.
pub fn copy(bytes: &[u8], out: &mut [u8], at: usize) -> Result<usize, Refusal>
    ensures { (result ≡ written_of (length bytes.now) (length out.old) at)
        × (out.new ≡ standing result bytes.now at out.old) }
{
    let end = at.saturating_add(bytes.len());
    if out.len() < end {
        return Err(Refusal::TooShort(end));
    }
    Ok(put(bytes, out, at))
}

// The magnitude of n.
pub fn size(n: i64) -> u64
    ensures { result ≡ nat_abs n }
{
    n.unsigned_abs()
}

// The digits of m at the end of the buffer, the last one first; where they begin. A number of 64 bits has at most 20
// digits, so that a place is left for a minus.
fn digits_back(m: u64, buffer: &mut [u8; 21]) -> usize
    requires { length buffer.old ≡ 21 }
    ensures { (drop result buffer.new ≡ digits m) × (1 ≤ result) × (result ≤ 21)
        × (length buffer.new ≡ 21) }
{
    let mut rest = m;
    let mut at: usize = 21;
    // a `while`: how often it runs is not known before the digits are
    while 9 < rest {
        at -= 1;
        buffer[at] = b'0' + (rest % 10) as u8;
        rest /= 10;
    }
    at -= 1;
    buffer[at] = b'0' + rest as u8;
    at
}

// The decimal form of n at the end of the buffer; where it begins.
fn form(n: i64, buffer: &mut [u8; 21]) -> usize
    requires { length buffer.old ≡ 21 }
    ensures { (drop result buffer.new ≡ decimal_of n) × (result ≤ 21) × (length buffer.new ≡ 21) }
{
    let first = digits_back(size(n), buffer);
    if n < 0 {
        let from = first - 1;
        buffer[from] = b'-';
        return from;
    }
    first
}

// Writes the decimal form of n into `out` from `at` on, where it fits.
pub fn write(n: i64, out: &mut [u8], at: usize) -> Result<usize, Refusal>
    ensures { (result ≡ written_of (length (decimal_of n)) (length out.old) at)
        × (out.new ≡ standing result (decimal_of n) at out.old) }
{
    let mut buffer = [0u8; 21];
    let from = form(n, &mut buffer);
    copy(&buffer[from..], out, at)
}

// The same for a natural number of 64 bits. It stands beside `write`: one function for both would need a trait, which
// is longer than these three lines.
pub fn write_natural(n: u64, out: &mut [u8], at: usize) -> Result<usize, Refusal>
    ensures { (result ≡ written_of (length (digits n)) (length out.old) at)
        × (out.new ≡ standing result (digits n) at out.old) }
{
    let mut buffer = [0u8; 21];
    let from = digits_back(n, &mut buffer);
    copy(&buffer[from..], out, at)
}

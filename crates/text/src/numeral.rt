// The number that a piece of a text is written as.
ghost use Rattle.std.specs.Prelude.{◌≡◌, ◌≤◌, pos, neg_ℤ};
ghost use Rattle.text.specs.Number.{natural_from, within, integer_from};
ghost use Rattle.text.specs.Inner.Inside.{digit_pushed};

// The greatest number of 64 signed bits, and the magnitude of the least.
const GREATEST: u64 = 9223372036854775807;

const LEAST: u64 = 9223372036854775808;

// m with one more decimal digit b behind, where b is a digit and the number at most `most`.
fn push(m: u64, b: u8, most: u64) -> Option<u64>
    requires { (m ≤ most) × (most ≤ 9223372036854775808) }
    ensures { result ≡ (digit_pushed most m b) }
{
    if b < b'0' {
        return None;
    }
    if b'9' < b {
        return None;
    }
    if most / 10 < m {
        return None;
    }
    let n = m * 10 + u64::from(b - b'0');
    if most < n {
        return None;
    }
    Some(n)
}

// The number that the digits are, where it is at most `most`. A number past `most` stays past it, so the first digit
// that takes it there ends the loop.
fn magnitude(digits: &[u8], most: u64) -> Option<u64>
    requires { most ≤ 9223372036854775808 }
    ensures { result ≡ (within most (natural_from digits.now)) }
{
    if digits.len() == 0 {
        return None;
    }
    let mut m: u64 = 0;
    for digit in digits {
        m = push(m, *digit, most)?;
    }
    Some(m)
}

// -m. The way over m - 1 keeps each step within 64 bits.
fn negative(m: u64) -> i64
    requires { m ≤ 9223372036854775808 }
    ensures { result ≡ neg_ℤ (pos m) }
{
    if m == 0 {
        return 0;
    }
    let less = (m - 1) as i64;
    -1 - less
}

// The number that a piece is.
pub fn signed(piece: &[u8]) -> Option<i64>
    ensures { result ≡ (integer_from piece.now) }
{
    if piece.len() == 0 {
        return None;
    }
    if piece[0] == b'-' {
        let m = magnitude(&piece[1..], LEAST)?;
        return Some(negative(m));
    }
    let m = magnitude(piece, GREATEST)?;
    Some(m as i64)
}

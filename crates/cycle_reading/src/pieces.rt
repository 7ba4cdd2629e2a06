// The pieces of a text: a whole run of digits, or one other byte.
ghost use Rattle.std.specs.Prelude.{◌≡◌, ◌+◌, ◌-◌, ◌*◌, ◌<◌, ◌≤◌, min, length};
ghost use Rattle.cycle_notation.specs.Piece.{digit_byte, mark};
ghost use Rattle.cycle_reading.specs.Inner.Hand.{piece_of, DigitsRead, FoundAt};

use super::{Digits, Found, Piece};

// A number past the greatest index is as good as one more than that.
const PAST: u64 = 3067;

// Whether a byte is a digit.
pub fn digit(b: u8) -> bool
    ensures { result ≡ digit_byte b }
{
    b.is_ascii_digit()
}

// m with one more digit b behind it, up to 3,067.
pub(crate) fn pushed(m: u64, b: u8) -> u64
    requires { (m ≤ 3067) × (48 ≤ b) × (b ≤ 57) }
    ensures { result ≡ min (m * 10 + (b - 48)) 3067 }
{
    let next = m * 10 + u64::from(b - b'0');
    if PAST < next { PAST } else { next }
}

// The run of digits from `from` on.
pub fn digits_at(text: &[u8], from: usize) -> Digits
    requires { from ≤ length text.now }
    ensures { DigitsRead text.now from result }
{
    let mut value: u64 = 0;
    for i in from..text.len() {
        if !digit(text[i]) {
            return Digits { value, to: i };
        }
        value = pushed(value, text[i]);
    }
    Digits {
        value,
        to: text.len(),
    }
}

// The piece that a byte is which is no digit.
pub(crate) fn mark_of(b: u8) -> Piece
    ensures { piece_of result ≡ mark b }
{
    match b {
        b' ' => Piece::Blank,
        b'(' => Piece::Opening,
        b')' => Piece::Closing,
        b',' => Piece::Comma,
        b';' => Piece::Semicolon,
        _ => Piece::Another,
    }
}

// The piece that begins at `at`.
pub(crate) fn piece_at(text: &[u8], at: usize) -> Found
    requires { at < length text.now }
    ensures { FoundAt text.now at result }
{
    let b = text[at];
    if !digit(b) {
        return Found {
            piece: mark_of(b),
            to: at + 1,
        };
    }
    let run = digits_at(text, at);
    Found {
        piece: Piece::Number(run.value as usize),
        to: run.to,
    }
}

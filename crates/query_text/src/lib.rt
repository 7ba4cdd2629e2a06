// What the program `query` writes for a text: all of it, byte for byte, as specs/Reply.antt says (docs/CONVENTIONS.md,
// 10.6).
// A sheet of pairs is read and answered in `sheet_text`.
#![tactic(auto)]

ghost use Rattle.std.specs.Prelude.{◌≡◌, ◌+◌, ◌*◌, ◌≤◌, length};
ghost use Rattle.text.specs.Input.{AnswersInput};
ghost use Rattle.text.specs.Line.{line};
ghost use Rattle.decimal.specs.Writing.{Puts};
ghost use Rattle.query_text.specs.Reply.{word_head, replied_to, reply_of, ReplyMeans};
ghost use Rattle.query_text.specs.Inner.Spaces.{replied};
ghost use Rattle.query_text.specs.Inner.Spaces.{ReplySpaces};

use call::refusal::Refusal;
use text::input::{Input, text_end};
use text::line::{line_of, refusal_line};
use text::{read_symbol, vertex_count};
use word::{FoundWord, four_at, query, word_part};

pub mod sheet_text;

// The line of a word with its sign, from `at` on.
pub fn word_line(sign: bool, word: &[i16], out: &mut [u8], at: usize) -> usize
    requires { at + (7 * length word.now + 27) ≤ length out.old }
    ensures { Puts (line (word_head sign) word.now) at result out.old out.new
        × (result ≤ at + (7 * length word.now + 7)) }
{
    line_of(word_head(sign), word, out, at)
}

// What stands in front of a word with this sign.
fn word_head(sign: bool) -> &'static [u8]
    ensures head { result.now ≡ word_head sign }
    ensures long { length result.now ≡ 6 }
{
    if sign { b"word +" } else { b"word -" }
}

// The answer for the symbol in t and the pair: the word with its sign, or its refusal.
fn reply_pair(
    v: usize,
    t: &[i64],
    a: [i64; 4],
    b: [i64; 4],
    w: &mut [u16],
    letters: &mut [i16],
    out: &mut [u8],
) -> usize
    requires { ReplySpaces w.old letters.old out.old }
    ensures { Puts (replied v t.now a b) 0 result out.old out.new }
{
    let answer = query(v, t, a, b, w, letters, 0);
    let Ok(found) = answer else {
        return refusal_line(answer.unwrap_err(), out);
    };
    let word = word_part(letters, found.start, found.letters);
    word_line(found.plus, word, out, 0)
}

// The answer for the numbers of a text.
fn reply_numbers(ns: &[i64], w: &mut [u16], letters: &mut [i16], out: &mut [u8]) -> usize
    requires { ReplySpaces w.old letters.old out.old }
    ensures { Puts (replied_to ns.now) 0 result out.old out.new }
{
    let k = ns.len();
    if k < 10 {
        return refusal_line(Refusal::BadVertexCount, out);
    }
    let v = vertex_count(ns[0]);
    let end = k - 8;
    let a = four_at(ns, end);
    let b = four_at(ns, k - 4);
    reply_pair(v, &ns[1..end], a, b, w, letters, out)
}

// The answer for a text, where the slices are long enough.
fn reply_text(
    text: &[u8],
    longer: bool,
    numbers: &mut [i64],
    w: &mut [u16],
    letters: &mut [i16],
    out: &mut [u8],
) -> usize
    requires { (length numbers.old ≡ 3079) × ReplySpaces w.old letters.old out.old }
    ensures { Puts (reply_of longer text.now) 0 result out.old out.new }
{
    match read_symbol(text, longer, 10, numbers) {
        Err(refusal) => refusal_line(refusal, out),
        Ok(k) => reply_numbers(&numbers[..k], w, letters, out),
    }
}

// What the program writes for an input, whose bytes stand at the front of the buffer, from the front of `out`; where
// it ends: at 0, with nothing changed, where the input could not be read.
pub fn reply(buffer: &[u8], input: Input, out: &mut [u8; 131072]) -> usize
    ensures { AnswersInput reply_of ReplyMeans buffer.now result out.old out.new
        input }
{
    let Input::Read(n, longer) = input else {
        return 0;
    };
    let end = text_end(buffer, n);
    let mut numbers = [0i64; 3079];
    let mut w = [0u16; 32768];
    let mut letters = [0i16; 16384];
    reply_text(
        &buffer[..end],
        longer,
        &mut numbers,
        &mut w,
        &mut letters,
        out,
    )
}

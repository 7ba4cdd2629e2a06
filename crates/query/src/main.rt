#![tactic(auto)]

// The program `query`: a symbol and two matrices A and B as text on standard input, and on standard output a word in
// the symbol's generators that takes A to B up to sign, behind that sign, or the number and the place of a refusal
// (docs/CONVENTIONS.md, 10.6).
//
// The crate `query_text` makes all that is written; here it is read and written (`stdio`).
// Where standard input can't be read to its end, nothing is written to standard output.
fn main(rt: HostRuntime) {
    let mut text = [0u8; 65536];
    let input = stdio::read_whole(&rt, &mut text);
    let mut out = [0u8; 131072];
    let end = query_text::reply(&text, input, &mut out);
    stdio::write_whole(&rt, &out[..end]);
}

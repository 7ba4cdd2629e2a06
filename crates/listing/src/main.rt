#![tactic(auto)]

// The program `listing`: a symbol as text on standard input, and on standard output its index, elliptic counts, cusps
// with widths, genus, level, generators and coset tables, or the number and the place of its refusal
// (docs/CONVENTIONS.md, 10.5).
//
// The crate `listing_text` makes all that is written; here it is read and written (`stdio`).
// Where standard input can't be read to its end, nothing is written to standard output.
fn main(rt: HostRuntime) {
    let mut text = [0u8; 65536];
    let input = stdio::read_whole(&rt, &mut text);
    let mut out = [0u8; 212992];
    let end = listing_text::list(&text, input, &mut out);
    stdio::write_whole(&rt, &out[..end]);
}

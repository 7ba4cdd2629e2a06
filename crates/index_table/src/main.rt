#![tactic(auto)]

// The program `index_table`: on standard output the constant table of the index of Γ0(N) for N from 1 to 1,000, as the
// source file crates/family_index/src/gamma0.rt has it, but with a line for each number. It reads nothing.
//
// The crate `index_text` makes all that is written; here it is written (`stdio`).
fn main(rt: HostRuntime) {
    let mut out = [0u8; 32768];
    let end = index_text::constant_lines(&mut out);
    stdio::write_whole(&rt, &out[..end]);
}

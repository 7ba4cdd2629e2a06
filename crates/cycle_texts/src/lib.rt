// Texts of cycle notation: read (`cycles_text`), and written from tables (`to_cycles_text`).
#![tactic(auto)]

pub mod cycles_text;
pub mod to_cycles_text;

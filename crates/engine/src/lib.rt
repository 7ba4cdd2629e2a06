// The engine as a library for C, for Rust and for any language that calls C: every call of the three licences, under
// one name each.
//
// An exported function returns 0, or the number of a refusal. Through `place` it writes the refusal's place or, where
// it returns 0, a count. Its contract is the call's plan: its steps in the order of its refusals, which say what it
// leaves in every space, and what number and place mean. include/farey.h says all of it in words.
#![tactic(auto)]

mod answers;
pub mod cosets;
pub mod exchanging;
pub mod imports;
pub mod matrices;
pub mod named;
pub mod notation;
pub mod queries;
pub mod subgroups;
pub mod symbols;
pub mod tables;
pub mod version;

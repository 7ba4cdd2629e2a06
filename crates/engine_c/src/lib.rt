// The exports of the engine for C: each function of the library `engine` under its own name, with its own contract. The
// static library that is made of this crate is target/staticlib/libengine.a; include/farey.h declares what is in it.
#![tactic(auto)]

pub mod cosets;
pub mod exchanging;
pub mod imports;
pub mod matrices;
pub mod named;
pub mod notation;
pub mod queries;
pub mod subgroups;
pub mod symbols;
pub mod tables;
pub mod version;

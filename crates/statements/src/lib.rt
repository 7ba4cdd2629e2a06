#![tactic(auto)]

// Statements over the whole library, without code. Every builder of coset tables keeps the standing rule of the coset
// record, and the genus of its tables is a number: specs/Builders.antt and specs/Genus.antt, with a part for each
// builder. The starred instances (docs/CONVENTIONS.md, 12), as one table over the definitions that the public calls
// promise: specs/Instances.antt.

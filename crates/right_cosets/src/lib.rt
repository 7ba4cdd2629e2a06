#![tactic(auto)]

// Right cosets of a group of matrices that a condition names, with the condition left open: transversals and the
// index, the cosets numbered by the rule, what tables of S and R of them say, and that no other tables say it.
// There is no code here: specs/ has the definitions and the theorems, proofs/ the proofs.

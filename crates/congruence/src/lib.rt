// The congruence groups Γ0(N), Γ1(N) and Γ(N): the conditions that name them, their indexes, and the numbering of their
// right cosets. specs/ has the definitions and the theorems. The code is the name of a family, and arithmetic modulo N
// (`modular`), by which the crates above compute.
#![tactic(auto)]

pub mod modular;

// Which of the three groups of a number N.
#[derive(Clone, Copy)]
pub enum Family {
    // The lower left entry is 0 modulo N.
    Gamma0,
    // It is 0, and the diagonal entries are both 1 or both -1.
    Gamma1,
    // The matrix is the identity or its negative.
    Gamma,
}

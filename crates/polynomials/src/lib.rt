// Polynomials modulo q and their tables of differences: definitions and laws only, no code.
#![tactic(auto)]

// Polynomials of degree 3, their values and their tables: definitions and laws only, no code.
#![tactic(auto)]

// Demand 3 of the search, from rows to zeros, and the starred cases: definitions and laws only, no code.
#![tactic(auto)]

// What a walk in Gray order holds for each list of positions, in any base and degree: definitions and laws only, no code.
#![tactic(auto)]

// How many common zeros there are, modulo 3: the theorem of Chevalley and Warning over this project's definitions. Laws only, no code.
#![tactic(auto)]

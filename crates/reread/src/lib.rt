// What a tidied text gives when it is read or tidied again. Definitions and laws, no code.
#![tactic(auto)]

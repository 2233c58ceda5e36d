// The nightly harness: what any run of `vayudrit_search` calls over bytes gives. Definitions and laws, no code.
#![tactic(auto)]

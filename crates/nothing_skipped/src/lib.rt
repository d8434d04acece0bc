// That nothing is skipped in an edited film: a statement and its proof, no code.
#![tactic(auto)]

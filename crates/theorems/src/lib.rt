// What the answers of the questions keep together: statements and proofs, no code.
#![tactic(auto)]

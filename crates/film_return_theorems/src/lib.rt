// No code: what holds of a film return over many films, in specs and proofs.
#![tactic(auto)]

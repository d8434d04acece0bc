// No code: what holds of the stepper's answers, in specs and proofs.
#![tactic(auto)]

// What holds of a film whose tables were closed up (compaction): statements and proofs, no code.
#![tactic(auto)]

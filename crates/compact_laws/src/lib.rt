// What compaction keeps: laws, no code.
#![tactic(auto)]

// Plain lists of numbers: definitions and laws that know nothing of files, no code.
#![tactic(auto)]

// Film W of document 01: its bytes and the cases that are proved of them. There is no code.
#![tactic(auto)]

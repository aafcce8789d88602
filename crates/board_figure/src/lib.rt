// Figure 5 of the broadcast paper beside a board's step: definitions and theorems, and no code.
#![tactic(auto)]

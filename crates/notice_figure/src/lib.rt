// Figure 4 of the broadcast paper beside a notice board's step: definitions and theorems, and no code.
#![tactic(auto)]

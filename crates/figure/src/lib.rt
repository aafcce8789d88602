// What the figures of the broadcast paper share: definitions and theorems, and no code.
#![tactic(auto)]

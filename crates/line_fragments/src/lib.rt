// The fragment broadcast over any hash, tree and code: definitions and theorems, and no code.
#![tactic(auto)]

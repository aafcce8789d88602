// Nothing runs here: this crate proves demand 3 for notices, of the definitions that the calls' contracts cite.
#![tactic(auto)]

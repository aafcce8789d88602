// Nothing runs here: this crate joins definitions and laws.
#![tactic(auto)]

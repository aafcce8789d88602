// Runs of a line of boards, the quorum facts and the promise: definitions and theorems, and no code.
#![tactic(auto)]

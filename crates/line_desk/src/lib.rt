// A line of boards that hold a state of bytes and are lent buffers, whatever they broadcast: definitions and theorems, and no code.
#![tactic(auto)]

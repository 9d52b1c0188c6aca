// Document 02's modified Manchester form of a frame, its clock cycles: definitions and theorems, no code.
#![tactic(auto)]

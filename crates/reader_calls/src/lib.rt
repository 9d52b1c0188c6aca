// Any calls on one reader, in any mix: no type and no function.
// The calls, the symbols that they feed and demand 3 of them stand in specs/.
#![tactic(auto)]

// One element lost or put in: no type and no function.
// What document 02 says of it, for every format and every setting k, and the proofs stand in specs/.
#![tactic(auto)]

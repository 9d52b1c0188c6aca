// timeread reads what timewrite prints: theorems over both, no code.
#![tactic(auto)]

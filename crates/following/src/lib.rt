// Why a reader that follows one frame answers as the plain machine does: definitions and theorems, no code.
#![tactic(auto)]

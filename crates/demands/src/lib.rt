// No code: the theorems on the crates below.
#![tactic(auto)]

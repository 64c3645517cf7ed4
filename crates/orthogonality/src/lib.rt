// No code: what a code reads of a field, and the power of a field, proved of the definitions.
#![tactic(auto)]

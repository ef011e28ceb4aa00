// The claims about runs of calls, and their proofs. It has no code.
#![tactic(auto)]

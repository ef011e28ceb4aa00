// No code: the tally is a definition over calls and answers, and claims about it.
#![tactic(auto)]

// No code: what each call of the controller makes of its invariant, of the book and of the row of good sectors is in specs/ and proofs/.
#![tactic(auto)]

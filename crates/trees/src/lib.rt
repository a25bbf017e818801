// Decision trees: definitions and their laws only, in specs/ and proofs/.

#![tactic(auto)]

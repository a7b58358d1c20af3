// The numbers to check by: a proved table in specs/ and proofs/, and no code.
#![tactic(auto)]

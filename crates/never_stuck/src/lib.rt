// Never stuck, about every list of calls: the statement in specs/, the theorem and its examples in proofs/, no code.
#![tactic(auto)]

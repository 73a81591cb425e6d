// No code: the statements that a reader came for are in specs/, their proofs in proofs/.
#![tactic(auto)]

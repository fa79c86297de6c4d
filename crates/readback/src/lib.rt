// What reading gives for bytes that the paper's encoding made: statements in specs/, proofs in proofs/. There is no code here.
#![tactic(auto)]

// A whole evening of writing: the statements in specs/, their proofs in proofs/. There is no code here.
#![tactic(auto)]

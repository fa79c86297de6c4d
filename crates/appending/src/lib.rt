// What adding one record does to the two files: the statement in specs/, its proof in proofs/. There is no code here.
#![tactic(auto)]

// A series of calls of the writer and what holds behind it: definition and statements in specs/, their proofs in proofs/. There is no code here.
#![tactic(auto)]

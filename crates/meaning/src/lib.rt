// What the rules mean, proved: proofs/. There is no code here.
#![tactic(auto)]

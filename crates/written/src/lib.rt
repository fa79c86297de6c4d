// Reading what the writer wrote gives the tables back. A theorem; there is no code.
#![tactic(auto)]

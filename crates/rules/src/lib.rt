// The rules of the pair checker and what its yes means: definitions, all in specs/. There is no code here.
#![tactic(auto)]

// Document 01's starred examples: one table and one statement, both in specs/. There is no code here.
#![tactic(auto)]

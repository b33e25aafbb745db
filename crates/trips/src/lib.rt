// The round trips of table and plan files, and what the table in force holds. It is all in proofs/; there is no code to run.
#![tactic(auto)]

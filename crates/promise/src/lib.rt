// The promise that no job is late. It is all in specs/ (what is said) and proofs/ (why it holds); there is no code to run.
#![tactic(auto)]

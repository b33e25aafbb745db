// Pieces that run over moments, whatever board they are on: a schedule that has the certificate keeps every job on time. It is all in specs/ (what is said) and proofs/ (why it holds); there is no code to run.
#![tactic(auto)]

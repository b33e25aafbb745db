// Document 01's worked examples, as one table in specs/ and one theorem in proofs/. This crate has no code of its own.
#![tactic(auto)]

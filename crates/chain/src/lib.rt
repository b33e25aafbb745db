// From the bytes of a table file to deadlines kept: one theorem that joins the contracts. No code.
#![tactic(auto)]

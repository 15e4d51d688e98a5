// Lent slices, tests and tables: what is said of them in specs/, and its laws in proofs/. There is no code.
#![tactic(auto)]

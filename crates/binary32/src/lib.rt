// What a Float is: an IEEE 754 binary32 value. specs/ says over whole numbers what each operation gives, proofs/ that the prover's
// own binary32 operations give it.
#![tactic(auto)]

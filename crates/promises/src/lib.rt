// What the definitions promise together, as theorems and nothing else: there is no code here.
//
// `specs/` has what the theorems speak of: the contents of a file as its reader finds them, a series of
// calls with their answers, the regions of a file, the whole table of tests of each call, demand 3, and
// the worked examples. `proofs/` has the theorems.

#![tactic(auto)]

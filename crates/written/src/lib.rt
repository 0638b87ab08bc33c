// Theorems only: what a creation and an append have written. There is no code here.
//
// Which bytes an append changes, that the file after it validates with the numbers that the append
// answers, and that the new entry, opened by its number, comes back as handed in.

#![tactic(auto)]

// Theorems only: files that hold the same bytes where it matters validate and open alike. There is
// no code here.
//
// The same first record gives the same validation, the same slot and entry descriptor the same open
// and the same places of the parts, and all the same words of an entry the same bytes of its parts.

#![tactic(auto)]

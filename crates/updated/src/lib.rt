// Theorems only: what an update of a section has rewritten. There is no code here.
//
// Which bytes an update changes, that the file validates after it as before, and that the entry opens
// as it did, with the same bytes of all its pieces but the section rewritten.

#![tactic(auto)]

// What a contract says of a call's outcome, and why a call refuses.
//
// Every contract of a public function is one relation between what goes in and what comes out: the
// answer is the one that a definition gives, and a lent slice is left as a definition has it. So two
// outcomes of a call that both meet its contract are equal.

#![tactic(auto)]

mod refusal;

pub use refusal::Refusal;

// Writing: creating a file, and appending entries to it.
//
// Both calls know all that they will write before the first byte is written: a refused call changes no
// byte. An append copies each byte of sections and data once, and touches nothing else but its index
// slot, the counts of the first record, and a new index area where one is needed. The functions of
// `inner` are for the crates above, which have validated before they call.
#![tactic(auto)]

mod answers;
mod appending;
mod creating;
pub mod inner;
mod rules;

pub use answers::Appended;
pub use appending::append;
pub use creating::create;

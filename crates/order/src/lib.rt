// The order check over a whole file.
//
// `check_order` validates the file, then opens entries 1 to n in turn and tests that each stands where
// a file written by appends has it. The first failure ends it. A file that passes is one from which
// appends are safe.
#![tactic(auto)]

mod answers;
mod checking;
pub mod inner;
mod rules;
mod standing;

pub use answers::Checked;
pub use checking::check_order;

// The record of an open file: what validating gives, and the running totals of the capacities.
//
// Every field of it follows from the file's first record, so a record is true of a file or it is not, and
// `held_refusal` says which. The functions of `inner` are for the crates above, which have validated
// before they call.
#![tactic(auto)]

mod answers;
pub mod inner;
mod opening;
mod rules;

pub use answers::{OpenFile, OpenFileAnswer};
pub use opening::open_file_of;
pub use rules::held_refusal;

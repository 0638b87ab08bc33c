// Storing an entry, in steps.
//
// Nothing is refused here: a caller knows, before the first byte is written, that all of it has its place. Each step
// writes its own bytes and no other.
#![tactic(auto)]

mod area;
mod head;
mod new_entry;
mod steps;
mod storing;
mod tables;

pub use area::put_rest;
pub use head::head_of;
pub use new_entry::NewEntry;
pub use steps::{put_content, put_descriptor};
pub use storing::store;

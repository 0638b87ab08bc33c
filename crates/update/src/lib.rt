// Rewriting a section of an entry within the space that it has.
//
// The memo lets a section be updated where the new content is no longer than the space that was reserved
// for it. The entry's numbers and tables stay as they are, the section's length field among them, so
// the space is not lost; and no other word of the file changes. The functions of `inner` are for callers
// that have found the section before they call.
#![tactic(auto)]

pub mod inner;
mod rules;
mod updating;

pub use updating::update_section;

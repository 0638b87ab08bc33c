// Where an append puts an entry of so many words: the new index area, if one is needed, and the entry behind it,
// or the refusal, 23 or 24; and the numbers of the file afterwards.
//
// Nothing here reads a file: all follows from the numbers of one that passed the rules.
#![tactic(auto)]

mod after;
mod areas;
mod placement;
mod rules;

pub use after::numbers_after;
pub use areas::new_area;
pub use placement::{Placement, place};

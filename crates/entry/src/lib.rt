// One entry of a file: opening it by its number.
//
// `open_entry` validates the file first and refuses by 1 to 11, 29, or 12 to 19, in this order. The
// functions of `inner` are for the crates above, which have validated before they call.
#![tactic(auto)]

mod answers;
mod entered;
pub mod inner;
mod opening;
mod rules;

pub use answers::{DataAddress, DataPlace, Open, OpenCase, Opened, open_case};
pub use entered::Entered;
pub use opening::open_entry;

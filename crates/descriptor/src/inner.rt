// What the crates above ask of a file that they validate, and of validated numbers.
pub(crate) mod addresses;
pub(crate) mod admitting;
pub(crate) mod areas;
pub(crate) mod derived;
pub(crate) mod reading;
mod slots;

pub use addresses::addresses_of;
pub use admitting::admit;
pub use areas::aex_in;
pub use derived::{free_position, mex};
pub use reading::numbers_of;
pub use slots::slot_in_use;

// Handing out an entry's index words, sections and data.
//
// Every call validates the file first and refuses by 1 to 11, 29, or 12 to 20, in this order. A part
// that is handed out is the very part of the lent slice; where it is empty, a call with the same
// arguments and `_refusal` behind its name tells a refusal from a part with nothing in it. The functions
// of `inner` are for callers that have validated before they call.
#![tactic(auto)]

pub mod inner;
mod parts;
mod place;

pub use parts::{
    data_array, data_array_place, data_array_refusal, index_words, index_words_place,
    index_words_refusal, section, section_place, section_refusal,
};
pub use place::PartPlace;

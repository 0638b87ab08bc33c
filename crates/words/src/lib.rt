// Words of a file image: the memo's Integer*4 and Integer*8, read and written as bits and as signed
// values, in either order of their bytes, and whether words are zero.
//
// Offsets count bytes from 0. A reader says which number the bytes at an offset stand for, a writer
// what the whole image holds at exit, a test what the signed value is. A caller shows that the word lies within the image.
#![tactic(auto)]

mod byte_order;
mod code;
mod integers;
mod range;
mod zero;

pub use byte_order::ByteOrder;
pub use code::code_at;
pub use integers::{Integer, read, write};
pub use range::{at_least, within};
pub use zero::all_zero;

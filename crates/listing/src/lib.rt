// The listing of a file as lines of text, one for each entry.
//
// `list_file` writes the listing to a lent buffer; `list_input` writes what the program `list` prints of
// its input, to a buffer that is proved to hold it. A file that is refused, and an entry that open
// refuses, have a line that says so.
#![tactic(auto)]

mod entries;
mod listing;
mod rows;
mod text;

pub use listing::{INPUT_MAX, OUTPUT_ROOM, list_file, list_input};

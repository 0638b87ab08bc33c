// What stands in an entry's words: its numbers, its sections and its data, each of these a piece of it.
//
// An entry is known by the position of its first word. The functions read its words and tables, and
// test where its pieces stand. They are for entries whose words lie within the file, read in the order that
// its code says, which they require.
#![tactic(auto)]

mod contents;
mod entry_words;
mod head;
mod spread;
mod tables;

pub use contents::{Piece, data_within};
pub use entry_words::EntryWords;
pub use head::{Head, head_at};
pub use spread::Spread;
pub use tables::{Sections, no_sections};

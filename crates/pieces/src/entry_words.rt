// The words of an entry: in which order and from where on they stand in a file, and how many sections its tables have.
ghost use Rattle.std.specs.Prelude.{◌<◌};
ghost use Rattle.outcome.specs.Outcome.{Answers};
ghost use Rattle.pieces.specs.EntryDescriptor.{section_of, identifier_at};
ghost use Rattle.pieces.specs.Bounds.{Described};

use super::contents::{Piece, word_at};
use geometry::EntryAddress;
use layout::entry_descriptor::{address_word, identifier_word, length_word};
use words::ByteOrder;

// An entry is known by the position of its first word. The descriptor with its tables lies within the file, and the order
// is the one that the file's code says.
#[derive(Clone, Copy)]
pub struct EntryWords<'a> {
    pub order: ByteOrder,
    pub file: &'a [u8],
    pub start: u64,
    pub nsec: u64,
    pub ghost described: { Described order file.now start nsec },
}

impl<'a> EntryWords<'a> {
    // Section `i`, counted from 0.
    #[tactic(auto, unfolding(crate::specs::EntryDescriptor::section_of))]
    pub fn section(&self, i: u64) -> Piece
        requires { i < self.now.nsec }
        ensures { Answers (section_of self.now.file.now self.now.start self.now.nsec i) result }
    {
        let address = address_word(self.nsec, i);
        let length = length_word(self.nsec, i);
        Piece {
            address: EntryAddress(word_at(self.order, self.file, self.start, address)),
            words: word_at(self.order, self.file, self.start, length),
        }
    }

    // The identifier of section `i`, counted from 0.
    pub fn identifier(&self, i: u64) -> i32
        requires { i < self.now.nsec }
        ensures { Answers (identifier_at self.now.file.now self.now.start i) result }
    {
        word_at(self.order, self.file, self.start, identifier_word(i))
    }
}

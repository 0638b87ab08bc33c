// The tables of an opened entry, and the section that an identifier names.
ghost use Rattle.std.specs.Prelude.{◌<◌};
ghost use Rattle.outcome.specs.Outcome.{Answers};
ghost use Rattle.pieces.specs.Tables.{sections_of, no_sections, named_of};

use super::entry_words::EntryWords;
use geometry::EntryAddress;
use layout::entry_descriptor::PLACES;

// The sections of an opened entry: the first nsec places of each table, the others zero. The library has no heap, so each table
// has a place for every section that an entry may have.
#[derive(Clone, Copy, Default)]
pub struct Sections {
    pub identifiers: [i32; PLACES],
    pub lengths: [u64; PLACES],
    pub addresses: [EntryAddress; PLACES],
}

// Tables with nothing in them.
pub fn no_sections() -> Sections
    ensures { Answers no_sections result }
{
    Sections::default()
}

impl<'a> EntryWords<'a> {
    // The three tables of the entry.
    pub fn tables(&self) -> Sections
        ensures { Answers (sections_of self.now.file.now self.now.start self.now.nsec) result }
    {
        let mut identifiers = [0i32; PLACES];
        let mut lengths = [0u64; PLACES];
        let mut addresses = [EntryAddress(0); PLACES];
        for i in 0..self.nsec {
            let section = self.section(i);
            identifiers[i as usize] = self.identifier(i);
            lengths[i as usize] = section.words;
            addresses[i as usize] = section.address;
        }
        Sections {
            identifiers,
            lengths,
            addresses,
        }
    }

    // The first section with an identifier, counted from 0.
    pub fn named(&self, identifier: i32) -> Option<u64>
        ensures { Answers (named_of self.now.file.now self.now.start self.now.nsec identifier) result }
    {
        (0..self.nsec).find(|i| self.identifier(*i) == identifier)
    }
}

// How the sections of an entry stand in it, found by one pass that keeps the highest end of those passed.
//
// A piece that starts at or after that end shares no word with one of them. So sections that are stored in
// order are not compared with each other, and any other only with those before it.
ghost use Rattle.std.specs.Prelude.{◌≡◌, true, ◌^◌, ◌≤◌, ◌<◌};
ghost use Rattle.outcome.specs.Outcome.{Answers};
ghost use Rattle.pieces.specs.Contents.{apart_from, sections_apart, data_apart};
ghost use Rattle.pieces.specs.Spread.{highest_end, in_order, spread_of};
ghost use Rattle.pieces.specs.Bounds.{Small, Ending};

use super::contents::{Piece, piece_within, pieces_apart};
use super::entry_words::EntryWords;
use geometry::EntryAddress;

// How sections stand that have a word at least and lie within the words that content may have: whether none
// starts before the end of one before it, and the highest of their ends.
#[derive(Clone, Copy)]
pub struct Spread {
    pub ordered: bool,
    pub end: EntryAddress,
}

impl<'a> EntryWords<'a> {
    // How the sections stand in an entry of `nword` words, where all of them lie within it.
    pub fn spread(&self, nword: u64) -> Option<Spread>
        requires { nword < 2 ^ 32 }
        ensures { Answers (spread_of self.now.file.now self.now.start self.now.nsec nword) result }
    {
        let mut end = 0u64;
        let mut ordered = true;
        for i in 0..self.nsec {
            let section = self.section(i);
            if !words::at_least::<i64>(section.words, 1) {
                return None;
            }
            if !piece_within(self.nsec, nword, section) {
                return None;
            }
            if section.address.0 < end {
                ordered = false;
            }
            end = end.max(section.address.0 + section.words);
        }
        Some(Spread {
            ordered,
            end: EntryAddress(end),
        })
    }

    // Whether a piece shares no word with one of the first `count` sections. A `for`, since the compiler makes a longer loop of `all`:
    // with 64 sections out of order an open then takes a quarter longer. It is laid out in its callers, as is the next, since a call of
    // its own for each section takes as much.
    #[inline(always)]
    fn apart_from(&self, piece: Piece, count: u64) -> bool
        requires { Ending self.now.file.now self.now.start self.now.nsec × Small piece × (count ≤ self.now.nsec) }
        ensures { Answers (apart_from self.now.file.now self.now.start self.now.nsec piece count) result }
    {
        for i in 0..count {
            if !pieces_apart(self.section(i), piece) {
                return false;
            }
        }
        true
    }

    // Whether a piece shares no word with one of the first `count` sections, whose highest end is known.
    #[inline(always)]
    #[tactic(auto, using(crate::proofs::Spreads::apart_after))]
    fn apart_from_before(&self, piece: Piece, count: u64, end: u64) -> bool
        requires { Ending self.now.file.now self.now.start self.now.nsec × Small piece × (count ≤ self.now.nsec) × (end ≡ highest_end self.now.file.now self.now.start self.now.nsec count) }
        ensures { Answers (apart_from self.now.file.now self.now.start self.now.nsec piece count) result }
    {
        end <= piece.address.0 || self.apart_from(piece, count)
    }

    // Whether no two sections share a word, each compared with those before it.
    fn each_apart(&self) -> bool
        requires { Ending self.now.file.now self.now.start self.now.nsec }
        ensures { Answers (sections_apart self.now.file.now self.now.start self.now.nsec self.now.nsec) result }
    {
        let mut end_before = 0u64;
        for i in 0..self.nsec {
            let section = self.section(i);
            if !self.apart_from_before(section, i, end_before) {
                return false;
            }
            end_before = end_before.max(section.address.0 + section.words);
        }
        true
    }

    // Whether no two sections share a word. Those that are said to stand in order are not compared.
    #[tactic(auto, using(crate::proofs::Spreads::ordered_apart))]
    pub fn sections_apart(&self, ordered: bool) -> bool
        requires { Ending self.now.file.now self.now.start self.now.nsec × (ordered ≡ true → in_order self.now.file.now self.now.start self.now.nsec self.now.nsec ≡ true) }
        ensures { Answers (sections_apart self.now.file.now self.now.start self.now.nsec self.now.nsec) result }
    {
        ordered || self.each_apart()
    }

    // Whether the data, where there is any, shares no word with a section.
    #[tactic(auto, unfolding(crate::specs::Contents::data_apart))]
    pub fn data_apart(&self, piece: Piece, end: EntryAddress) -> bool
        requires { Ending self.now.file.now self.now.start self.now.nsec × ((piece.words ≡ 0 → ⊥) → Small piece) × (end.0 ≡ highest_end self.now.file.now self.now.start self.now.nsec self.now.nsec) }
        ensures { Answers (data_apart self.now.file.now self.now.start self.now.nsec piece) result }
    {
        piece.words == 0 || self.apart_from_before(piece, self.nsec, end.0)
    }
}

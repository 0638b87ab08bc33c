// An entry's index words, sections and data, for C: where each stands in the lent file.
ghost use Rattle.std.specs.Prelude.{◌≤◌};
ghost use Rattle.outcome.specs.Outcome.{Answers};
ghost use Rattle.handing.specs.Parts.{index_words_of, section_words_of, data_words_of};
ghost use Rattle.classic.specs.Answers.{part_for};

use super::answers::ClassicPart;
use geometry::EntryNumber;
use handing::{PartPlace, data_array_place, index_words_place, section_place};

// A part by its start and length. It asks that the place starts no later than it ends, which a `From` could not ask.
fn part_at(place: PartPlace) -> ClassicPart
    requires { place.start ≤ place.end }
    ensures { Answers (part_for place) result }
{
    ClassicPart {
        refusal: place.refusal,
        start: place.start as u64,
        length: (place.end - place.start) as u64,
    }
}

// The application's words of an entry's index, or the refusal.
pub fn classic_index_words(file: &[u8], entry: u64) -> ClassicPart
    ensures { Answers (part_for (index_words_of file.now (record { 0 = entry }))) result }
{
    part_at(index_words_place(file, EntryNumber(entry)))
}

// The first section of an entry that has the identifier, or the refusal.
pub fn classic_section(file: &[u8], entry: u64, identifier: i32) -> ClassicPart
    ensures { Answers (part_for (section_words_of file.now (record { 0 = entry }) identifier)) result }
{
    part_at(section_place(file, EntryNumber(entry), identifier))
}

// The data of an entry, or the refusal.
pub fn classic_data(file: &[u8], entry: u64) -> ClassicPart
    ensures { Answers (part_for (data_words_of file.now (record { 0 = entry }))) result }
{
    part_at(data_array_place(file, EntryNumber(entry)))
}

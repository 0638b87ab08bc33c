// Handing out an entry's index words, sections and data.
ghost use Rattle.std.specs.Prelude.{◌≤◌, length};
ghost use Rattle.outcome.specs.Outcome.{Answers};
ghost use Rattle.descriptor.specs.Answers.{validation_of};
ghost use Rattle.descriptor.specs.FirstRecord.{addresses_of};
ghost use Rattle.descriptor.specs.Bounds.{AdmittedIn, TotalsOf};
ghost use Rattle.handing.specs.Parts.{index_words_of, section_words_of, data_words_of, IsPart, PartBy};

use super::inner::{data_part, index_part, no_part, section_part};
use super::place::PartPlace;
use descriptor::inner::admit;
use descriptor::{DescriptorNumbers, Validated, refusal_of};
use geometry::EntryNumber;

// The part that `find` gives by a file's numbers and totals; a file that is refused has no part, and its own refusal. It is
// laid out in each of its callers, so that the numbers come straight from the file.
#[inline(always)]
fn part_by<F: FnOnce(DescriptorNumbers, &[u64]) -> PartPlace>(file: &[u8], find: F) -> PartPlace
    requires { (d : _) (totals : _) → AdmittedIn file.now d (addresses_of file.now d.nex) → TotalsOf d totals.now → F.pre find d totals }
    ensures { PartBy (λ d totals place. F.post find d totals place) (validation_of file.now).numbers result }
{
    let mut totals = [0u64; 16];
    let case = admit(file, &mut totals);
    let Validated::Numbers(d) = case else {
        return no_part(refusal_of(case));
    };
    find(d, &totals)
}

// The bytes of a part.
fn bytes_of<'a>(file: &'a [u8], place: PartPlace) -> &'a [u8]
    requires { (place.start ≤ place.end) × (place.end ≤ length file.now) }
    ensures { IsPart file.entry place result }
{
    &file[place.start..place.end]
}

// Where the application's words of an entry's index stand, or the first rule of 1 to 11, 29 and
// 12 to 19 that is broken.
pub fn index_words_place(file: &[u8], number: EntryNumber) -> PartPlace
    ensures { Answers (index_words_of file.now number) result }
{
    part_by(file, |d, totals| index_part(file, d, totals, number))
}

// The application's words of an entry's index.
pub fn index_words<'a>(file: &'a [u8], number: EntryNumber) -> &'a [u8]
    ensures { IsPart file.entry (index_words_of file.now number) result }
{
    bytes_of(file, index_words_place(file, number))
}

// The refusal of `index_words`, 0 when the words are handed out.
pub fn index_words_refusal(file: &[u8], number: EntryNumber) -> u32
    ensures { Answers (index_words_of file.now number).refusal result }
{
    index_words_place(file, number).refusal
}

// Where the first section with an identifier stands, or the first rule of 1 to 11, 29 and 12 to 20
// that is broken.
pub fn section_place(file: &[u8], number: EntryNumber, identifier: i32) -> PartPlace
    ensures { Answers (section_words_of file.now number identifier) result }
{
    part_by(
        file,
        |d, totals| section_part(file, d, totals, number, identifier),
    )
}

// The first section of an entry that has an identifier.
pub fn section<'a>(file: &'a [u8], number: EntryNumber, identifier: i32) -> &'a [u8]
    ensures { IsPart file.entry (section_words_of file.now number identifier) result }
{
    bytes_of(file, section_place(file, number, identifier))
}

// The refusal of `section`, 0 when the section is handed out.
pub fn section_refusal(file: &[u8], number: EntryNumber, identifier: i32) -> u32
    ensures { Answers (section_words_of file.now number identifier).refusal result }
{
    section_place(file, number, identifier).refusal
}

// Where the data of an entry stands, or the first rule of 1 to 11, 29 and 12 to 19 that is broken.
pub fn data_array_place(file: &[u8], number: EntryNumber) -> PartPlace
    ensures { Answers (data_words_of file.now number) result }
{
    part_by(file, |d, totals| data_part(file, d, totals, number))
}

// The data of an entry.
pub fn data_array<'a>(file: &'a [u8], number: EntryNumber) -> &'a [u8]
    ensures { IsPart file.entry (data_words_of file.now number) result }
{
    bytes_of(file, data_array_place(file, number))
}

// The refusal of `data_array`, 0 when the data is handed out, also where there is none.
pub fn data_array_refusal(file: &[u8], number: EntryNumber) -> u32
    ensures { Answers (data_words_of file.now number).refusal result }
{
    data_array_place(file, number).refusal
}

// Appending an entry to a file.
ghost use Rattle.storing.specs.Handed.{handed};
ghost use Rattle.writer.specs.Answers.{Appends};

use super::answers::Appended;
use super::inner::append_from;
use descriptor::inner::admit;
use descriptor::{Validated, refusal_of};
use geometry::EntryNumber;
use storing::NewEntry;

// Appends an entry: its version, the application's index words, its sections by identifiers, lengths
// and bytes one after another, and its data. Refuses by the first rule of 1 to 11, 29 and 21 to 24
// that is broken, and then changes no byte. The parts are lent one by one, as C has them.
pub fn append(
    file: &mut [u8],
    version: i32,
    index: &[u8],
    ids: &[i32],
    lengths: &[i64],
    sections: &[u8],
    values: &[u8],
) -> Appended
    ensures { Appends file.old (handed version index ids lengths sections values) result file.new }
{
    let mut totals = [0u64; 16];
    let case = admit(file, &mut totals);
    let Validated::Numbers(d) = case else {
        return Appended {
            refusal: refusal_of(case),
            number: EntryNumber(0),
        };
    };
    let entry = NewEntry {
        version,
        index,
        ids,
        lengths,
        sections,
        values,
    };
    Appended::from(append_from(d, &totals, file, &entry))
}

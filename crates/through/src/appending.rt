// Appending an entry through a record.
ghost use Rattle.storing.specs.Handed.{handed};
ghost use Rattle.through.specs.Answers.{AppendsThrough};

use super::keeping::kept_true;
use geometry::EntryNumber;
use held::{OpenFile, held_refusal};
use storing::NewEntry;
use writer::Appended;
use writer::inner::append_from;

// The answer of `append_through`: the record as it is afterwards, and what `append` answers. The record is given back also where
// the append is refused, so this is no Result.
#[derive(Clone, Copy)]
pub struct AppendedThrough {
    pub held: OpenFile,
    pub answer: Appended,
}

// Appends an entry as `append` does, through a record of the file. Refuses by 27 before all else where
// the record is not the one that the file has, and then record and file stay.
pub fn append_through(
    held: OpenFile,
    file: &mut [u8],
    version: i32,
    index: &[u8],
    ids: &[i32],
    lengths: &[i64],
    sections: &[u8],
    values: &[u8],
) -> AppendedThrough
    ensures { AppendsThrough file.old held (handed version index ids lengths sections values) result file.new }
{
    let refusal = held_refusal(file, held);
    if refusal != 0 {
        return AppendedThrough {
            held,
            answer: Appended {
                refusal,
                number: EntryNumber(0),
            },
        };
    }
    let entry = NewEntry {
        version,
        index,
        ids,
        lengths,
        sections,
        values,
    };
    let totals = held.totals;
    let answer = Appended::from(append_from(held.numbers, &totals, file, &entry));
    if answer.refusal != 0 {
        return AppendedThrough { held, answer };
    }
    let after = kept_true(file, held);
    AppendedThrough {
        held: after,
        answer,
    }
}

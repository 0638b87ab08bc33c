// Rewriting a section through a record.
ghost use Rattle.update.specs.Answers.{update_in};
ghost use Rattle.through.specs.Answers.{UpdatesThrough};

use geometry::EntryNumber;
use handing::inner::section_part;
use held::{OpenFile, held_refusal};
use update::inner::update_at;

// The answer of `update_through`: the record as it is afterwards, and what `update_section` answers. The record is given back also
// where the update is refused, so this is no Result.
#[derive(Clone, Copy)]
pub struct UpdatedThrough {
    pub held: OpenFile,
    pub answer: u32,
}

// Rewrites a section as `update_section` does, through a record of the file. Refuses by 27 before all
// else where the record is not the one that the file has, and then record and file stay.
pub fn update_through(
    held: OpenFile,
    file: &mut [u8],
    number: EntryNumber,
    identifier: i32,
    content: &[u8],
) -> UpdatedThrough
    ensures { UpdatesThrough file.old held (update_in number identifier content.now) result file.new }
{
    let refusal = held_refusal(file, held);
    if refusal != 0 {
        return UpdatedThrough {
            held,
            answer: refusal,
        };
    }
    let d = held.numbers;
    let totals = held.totals;
    let place = section_part(file, d, &totals, number, identifier);
    UpdatedThrough {
        held,
        answer: update_at(file, place, content),
    }
}

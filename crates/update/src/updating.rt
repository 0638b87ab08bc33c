// Rewriting a section that is named by its entry and its identifier.
ghost use Rattle.update.specs.Answers.{update_in, Updates};

use super::inner::update_at;
use descriptor::inner::admit;
use descriptor::{Validated, refusal_of};
use geometry::EntryNumber;
use handing::inner::section_part;

// Writes new content to the first section of an entry that has the identifier, and zeros over the rest
// of the space that its length field gives it; the length field stays. Refuses by the first rule of 1 to
// 11, 29, 12 to 20 and 28 that is broken, and then changes no byte. C has no Result, so the answer is the number, 0 when accepted.
pub fn update_section(file: &mut [u8], number: EntryNumber, identifier: i32, content: &[u8]) -> u32
    ensures { Updates file.old (update_in number identifier content.now) result file.new }
{
    let mut totals = [0u64; 16];
    let case = admit(file, &mut totals);
    let Validated::Numbers(d) = case else {
        return refusal_of(case);
    };
    let place = section_part(file, d, &totals, number, identifier);
    update_at(file, place, content)
}

// The order check of a file.
ghost use Rattle.outcome.specs.Outcome.{Answers};
ghost use Rattle.order.specs.Order.{check_of};

use super::answers::Checked;
use super::inner::check_entries;
use descriptor::inner::admit;
use descriptor::{Validated, refusal_of};
use geometry::EntryNumber;

// Checks that all entries open and stand in the order of appends.
pub fn check_order(file: &[u8]) -> Checked
    ensures { Answers (check_of file.now) result }
{
    let mut totals = [0u64; 16];
    let case = admit(file, &mut totals);
    let Validated::Numbers(d) = case else {
        return Checked {
            entry: EntryNumber(0),
            refusal: refusal_of(case),
        };
    };
    check_entries(file, d, &totals)
}

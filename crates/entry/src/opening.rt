// Opening an entry of a file.
ghost use Rattle.outcome.specs.Outcome.{Answers};
ghost use Rattle.entry.specs.Answers.{open_of, not_opened};

use super::answers::{DataAddress, DataPlace, Open, Opened};
use super::inner::enter;
use descriptor::inner::admit;
use descriptor::{Validated, refusal_of};
use geometry::EntryNumber;
use pieces::{EntryWords, no_sections};

// An open with a refusal.
fn refused(refusal: u32) -> Opened
    ensures { Answers (not_opened refusal) result }
{
    Opened {
        answer: Open::Refused(refusal),
        sections: no_sections(),
    }
}

// Opens an entry by its number: its numbers and tables, or the first rule of 1 to 11, 29 and 12
// to 19 that is broken.
pub fn open_entry(file: &[u8], number: EntryNumber) -> Opened
    ensures { Answers (open_of file.now number) result }
{
    let mut totals = [0u64; 16];
    let case = admit(file, &mut totals);
    let Validated::Numbers(d) = case else {
        return refused(refusal_of(case));
    };
    let entered = match enter(file, d, &totals, number) {
        Ok(entered) => entered,
        Err(refusal) => return refused(refusal.number()),
    };
    let entry = EntryWords {
        order: d.order,
        file,
        start: entered.start,
        nsec: entered.nsec,
    };
    let place = entered.place;
    let array = entered.array;
    let stored = DataPlace {
        adata: DataAddress(array.address.0.cast_signed()),
        ldata: array.words,
    };
    Opened {
        answer: Open::Numbers(place, entered.version, entered.nsec, entered.nword, stored),
        sections: entry.tables(),
    }
}

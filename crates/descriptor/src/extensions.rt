// The extensions of a file.
ghost use Rattle.outcome.specs.Outcome.{Answers};
ghost use Rattle.descriptor.specs.Answers.{extension_of, no_extension};

use super::inner::{admit, aex_in};
use super::validating::{Validated, refusal_of};
use geometry::{ExtensionNumber, RecordNumber, area_records, total_before};
use outcome::Refusal;

// The answer of `extension_of`: the refusal, 0 when there is such an extension; how many entries it
// holds; and its index area, by its first record and its count of records. The refusal is its number in the list, so that
// callers in C and in Rust read one and the same.
#[derive(Clone, Copy, Default)]
pub struct Extension {
    pub refusal: u32,
    pub capacity: u64,
    pub first: RecordNumber,
    pub records: u64,
}

// An extension with a refusal.
fn refused(refusal: u32) -> Extension
    ensures { Answers (no_extension refusal) result }
{
    Extension {
        refusal,
        ..Extension::default()
    }
}

// An extension of a file by its number, or the refusal: 1 to 11 and 29, then 12.
pub fn extension_of(file: &[u8], number: ExtensionNumber) -> Extension
    ensures { Answers (extension_of file.now number) result }
{
    let mut totals = [0u64; 16];
    let case = admit(file, &mut totals);
    let Validated::Numbers(d) = case else {
        return refused(refusal_of(case));
    };
    if number.0 < 1 {
        return refused(Refusal::Number.number());
    }
    if d.nex < number.0 {
        return refused(Refusal::Number.number());
    }
    let before = total_before(&totals, number);
    let capacity = total_before(&totals, ExtensionNumber(number.0 + 1)) - before;
    Extension {
        refusal: 0,
        capacity,
        first: aex_in(d.order, file, number),
        records: area_records(capacity, d.lind, d.reclen),
    }
}

// Validating a file's descriptor.
ghost use Rattle.std.specs.Prelude.{◌≡◌};
ghost use Rattle.outcome.specs.Outcome.{Answers};
ghost use Rattle.descriptor.specs.Answers.{validation_of, no_validation, no_numbers, validated_case};

use super::inner::addresses_of;
use super::inner::admitting::file_refusal;
use super::inner::reading::numbers_of;
use super::numbers::DescriptorNumbers;
use geometry::RecordNumber;

// The case of a validation: the numbers of an admitted file, or the refusal. It is no Result, since a caller takes the numbers
// out by `let .. else`, and what is left is the number that its own answer has.
#[derive(Clone, Copy)]
pub enum Validated {
    Numbers(DescriptorNumbers),
    Refused(u32),
}

// The answer of `validate`: the refusal, 0 when the descriptor is admitted; the case; and the
// addresses of the extensions in use, the other places zero. The refusal is its number in the list, so that callers in C and in
// Rust read one and the same. The library has no heap, so the table has a place for each extension that a file may have.
#[derive(Clone, Copy)]
pub struct Validation {
    pub refusal: u32,
    pub numbers: Validated,
    pub addresses: [RecordNumber; 16],
}

// What a case says: 01's number, 0 for numbers, and 01's values, zeros for a refusal. C has no enum with values in it, so here
// the refusal is a number beside them.
#[derive(Clone, Copy)]
pub struct ValidatedCase {
    pub refusal: u32,
    pub numbers: DescriptorNumbers,
}

impl From<Validated> for ValidatedCase {
    ghost from_gives = { λ case answer. answer ≡ validated_case case };

    fn from(case: Validated) -> ValidatedCase {
        match case {
            Validated::Numbers(numbers) => ValidatedCase {
                refusal: 0,
                numbers,
            },
            Validated::Refused(refusal) => ValidatedCase {
                refusal,
                numbers: no_numbers(),
            },
        }
    }
}

// A validation with a refusal. The case has no zero value, so that there is no Default to take the rest from.
fn no_validation(refusal: u32) -> Validation
    ensures { Answers (no_validation refusal) result }
{
    Validation {
        refusal,
        numbers: Validated::Refused(refusal),
        addresses: [RecordNumber(0); 16],
    }
}

// The descriptor's numbers and addresses, or the first rule of 1 to 11 and 29 that the file breaks.
pub fn validate(file: &[u8]) -> Validation
    ensures { Answers (validation_of file.now) result }
{
    let mut totals = [0u64; 16];
    match file_refusal(file, &mut totals) {
        Ok(()) => {
            let d = numbers_of(file);
            Validation {
                refusal: 0,
                numbers: Validated::Numbers(d),
                addresses: addresses_of(d.order, file, d.nex),
            }
        }
        Err(refusal) => no_validation(refusal.number()),
    }
}

// Numbers that are all zero.
pub fn no_numbers() -> DescriptorNumbers
    ensures { Answers no_numbers result }
{
    DescriptorNumbers::default()
}

// The number and the values of a case.
pub fn validated_case(case: Validated) -> ValidatedCase
    ensures { Answers (validated_case case) result }
{
    ValidatedCase::from(case)
}

// The number of a case alone.
pub fn refusal_of(case: Validated) -> u32
    ensures { Answers (validated_case case).refusal result }
{
    validated_case(case).refusal
}

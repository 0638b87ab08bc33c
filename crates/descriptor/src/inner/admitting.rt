// Validating a file, with what the one walk over its extensions finds.
ghost use Rattle.std.specs.Prelude.{◌≡◌, replicate};
ghost use Rattle.outcome.specs.Outcome.{Leaves, AnswersAndLeaves};
ghost use Rattle.outcome.specs.Refusal.{Refuses};
ghost use Rattle.descriptor.specs.Rules.{file_refusal};
ghost use Rattle.descriptor.specs.Walking.{totals_in};
ghost use Rattle.descriptor.specs.Answers.{case_of};

use super::areas::areas_hold;
use crate::inner::reading::numbers_of;
use crate::rules::{count_refusal, limit_refusal};
use crate::validating::Validated;
use crate::walking::walk_extensions;
use geometry::{byte_offset, first_record_offset};
use layout::first_record::after_aex;
use outcome::Refusal;

// Rules 1 to 11 and 29, in this order; and the totals of the extensions in use, in a table that is zero before.
pub(crate) fn file_refusal(file: &[u8], totals: &mut [u64]) -> Result<(), Refusal>
    requires { totals.old ≡ replicate 16 0 }
    ensures refuses { Refuses (file_refusal file.now) result }
    ensures leaves { Leaves (totals_in file.now) totals.new }
{
    let bytes = file.len() as u64;
    Refusal::LentShort.unless(64 <= bytes)?;
    let d = numbers_of(file);
    limit_refusal(bytes, d)?;
    let Some(walked) = walk_extensions(file, d, totals) else {
        return Err(Refusal::Growth);
    };
    count_refusal(bytes, d, walked)?;
    Refusal::IndexArea.unless(areas_hold(d, walked.after))?;
    let start = first_record_offset(after_aex(d.nex));
    let end = byte_offset(d.reclen);
    Refusal::Leftovers.unless(words::all_zero(file, start, end))
}

// The numbers of an admitted file, or the refusal; and the totals, as `file_refusal` leaves them. The numbers are
// read once more, so that none of them is handed on from call to call.
pub fn admit(file: &[u8], totals: &mut [u64]) -> Validated
    requires { totals.old ≡ replicate 16 0 }
    ensures { AnswersAndLeaves (case_of file.now) (totals_in file.now) result totals.new }
{
    match file_refusal(file, totals) {
        Ok(()) => Validated::Numbers(numbers_of(file)),
        Err(refusal) => Validated::Refused(refusal.number()),
    }
}

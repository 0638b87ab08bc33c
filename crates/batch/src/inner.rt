// Appending the entries of a batch in turn to a file whose numbers are at hand, as after validating it.
ghost use Rattle.std.specs.Prelude.{◌≡◌};
ghost use Rattle.descriptor.specs.FirstRecord.{numbers_of, addresses_of};
ghost use Rattle.descriptor.specs.Rules.{file_refusal};
ghost use Rattle.descriptor.specs.Bounds.{AdmittedIn};
ghost use Rattle.storing.specs.Handed.{handed_of};
ghost use Rattle.batch.specs.Batch.{entries_in, batch_handed};
ghost use Rattle.batch.specs.Rules.{batch_refusal};
ghost use Rattle.batch.specs.Taking.{AppendsNext};
ghost use Rattle.batch.specs.Answers.{AppendsInTurn};

use super::answers::Batched;
use super::counts::Counts;
use super::new_entries::NewEntries;
use descriptor::DescriptorNumbers;
use descriptor::inner::numbers_of;
use geometry::{Growth, totals_of};
use outcome::Refusal;
use storing::NewEntry;
use writer::inner::append_from;

// Appends an entry to a file of admitted numbers, and gives the numbers of the file after it.
fn append_next(
    d: DescriptorNumbers,
    file: &mut [u8],
    entry: &NewEntry,
) -> Result<DescriptorNumbers, Refusal>
    requires { AdmittedIn file.old d (addresses_of file.old d.nex) }
    ensures { AppendsNext file.old d (handed_of entry.now) result file.new }
{
    let totals = totals_of(Growth::new(d.lex1, d.gex), d.nex);
    append_from(d, &totals, file, entry)?;
    Ok(numbers_of(file))
}

// Appends the entries of a batch that passed its rules, to a file that validates with these numbers.
pub fn append_in_turn(d: DescriptorNumbers, file: &mut [u8], entries: &NewEntries) -> Batched
    requires { (file_refusal file.old ≡ 0) × (d ≡ numbers_of file.old) × (batch_refusal (batch_handed entries.now) ≡ 0) }
    ensures { AppendsInTurn file.old (entries_in (batch_handed entries.now)) result file.new }
{
    let mut numbers = d;
    let mut left = entries.columns;
    for (accepted, version) in entries.versions.iter().enumerate() {
        let (entry, rest) = left.split(*version, Counts::from(entries.counts[accepted]));
        match append_next(numbers, file, &entry) {
            Ok(after) => numbers = after,
            Err(refusal) => {
                return Batched {
                    refusal: refusal.number(),
                    accepted: accepted as u64,
                };
            }
        }
        left = rest;
    }
    Batched {
        refusal: 0,
        accepted: entries.versions.len() as u64,
    }
}

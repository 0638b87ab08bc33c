// The record of an open file, and appending and updating through it where it is lent.
//
// The record and the answers are those of the crates below, which are laid out as C has them, and the number
// of an entry is a struct of one number, which C passes as that number. So each call has one function for
// C and for Rattle, where its name has no `classic_`: it hands the record to the call of `through`, by
// value, and stores what that answers as the record where the record stands.
ghost use Rattle.outcome.specs.Outcome.{Answers};
ghost use Rattle.storing.specs.Handed.{handed};
ghost use Rattle.batch.specs.Batch.{laid, batch};
ghost use Rattle.update.specs.Answers.{update_in};
ghost use Rattle.held.specs.Record.{open_file_of};
ghost use Rattle.through.specs.Answers.{AppendsTo, AppendsBatchTo, UpdatesTo};

use batch::Batched;
use geometry::EntryNumber;
use held::{OpenFile, OpenFileAnswer, open_file_of};
use through::{append_batch_through, append_through, update_through};
use writer::Appended;

// The record of a file, or the refusal.
pub fn classic_open_file_of(file: &[u8]) -> OpenFileAnswer
    ensures { Answers (open_file_of file.now) result }
{
    open_file_of(file)
}

// Appends an entry through a record that is lent. Answers its number, or the refusal.
pub fn classic_append_to(
    held: &mut OpenFile,
    file: &mut [u8],
    version: i32,
    index: &[u8],
    ids: &[i32],
    lengths: &[i64],
    sections: &[u8],
    values: &[u8],
) -> Appended
    ensures { AppendsTo file.old held.old (handed version index ids lengths sections values) result held.new file.new }
{
    let appended = append_through(*held, file, version, index, ids, lengths, sections, values);
    *held = appended.held;
    appended.answer
}

// Appends entries in turn through a record that is lent. Answers how many were accepted, and the refusal
// that ended it, if any.
pub fn classic_append_batch_to(
    held: &mut OpenFile,
    file: &mut [u8],
    versions: &[i32],
    counts: &[[u64; 5]],
    index: &[u8],
    ids: &[i32],
    lengths: &[i64],
    sections: &[u8],
    values: &[u8],
) -> Batched
    ensures { AppendsBatchTo file.old held.old (batch versions counts (laid index ids lengths sections values)) result held.new file.new }
{
    let batched = append_batch_through(
        *held, file, versions, counts, index, ids, lengths, sections, values,
    );
    *held = batched.held;
    batched.answer
}

// Rewrites a section through a record that is lent. Answers 0, or the refusal.
pub fn classic_update_to(
    held: &mut OpenFile,
    file: &mut [u8],
    entry: EntryNumber,
    identifier: i32,
    content: &[u8],
) -> u32
    ensures { UpdatesTo file.old held.old (update_in entry identifier content.now) result held.new file.new }
{
    let updated = update_through(*held, file, entry, identifier, content);
    *held = updated.held;
    updated.answer
}

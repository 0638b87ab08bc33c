// The record of an open file, and the calls through it where it is lent.
ghost use Rattle.outcome.specs.Outcome.{Answers};
ghost use Rattle.storing.specs.Handed.{handed};
ghost use Rattle.batch.specs.Batch.{laid, batch};
ghost use Rattle.update.specs.Answers.{update_in};
ghost use Rattle.held.specs.Record.{open_file_of};
ghost use Rattle.through.specs.Answers.{AppendsTo, AppendsBatchTo, UpdatesTo};

use classic::{Appended, Batched, EntryNumber, OpenFile, OpenFileAnswer};

// The record of a file, or the refusal.
#[unsafe(no_mangle)]
pub extern "C" fn classic_open_file_of(file: &[u8]) -> OpenFileAnswer
    ensures { Answers (open_file_of file.now) result }
{
    classic::classic_open_file_of(file)
}

// Appends an entry through a record that is lent. Answers its number, or the refusal.
#[unsafe(no_mangle)]
pub extern "C" fn classic_append_to(
    held: &mut OpenFile,
    file: &mut [u8],
    version: i32,
    index: &[u8],
    ids: &[i32],
    lengths: &[i64],
    sections: &[u8],
    values: &[u8],
) -> Appended
    ensures { AppendsTo file.old held.old (handed version index ids lengths sections values) result held.new file.new }
{
    classic::append_to(held, file, version, index, ids, lengths, sections, values)
}

// Appends entries in turn through a record that is lent. Answers how many were accepted, and the refusal
// that ended it, if any.
#[unsafe(no_mangle)]
pub extern "C" fn classic_append_batch_to(
    held: &mut OpenFile,
    file: &mut [u8],
    versions: &[i32],
    counts: &[[u64; 5]],
    index: &[u8],
    ids: &[i32],
    lengths: &[i64],
    sections: &[u8],
    values: &[u8],
) -> Batched
    ensures { AppendsBatchTo file.old held.old (batch versions counts (laid index ids lengths sections values)) result held.new file.new }
{
    classic::append_batch_to(
        held, file, versions, counts, index, ids, lengths, sections, values,
    )
}

// Rewrites a section through a record that is lent. Answers 0, or the refusal.
#[unsafe(no_mangle)]
pub extern "C" fn classic_update_to(
    held: &mut OpenFile,
    file: &mut [u8],
    entry: EntryNumber,
    identifier: i32,
    content: &[u8],
) -> u32
    ensures { UpdatesTo file.old held.old (update_in entry identifier content.now) result held.new file.new }
{
    classic::update_to(held, file, entry, identifier, content)
}

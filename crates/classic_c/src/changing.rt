// The calls that change a file: create, append and update.
ghost use Rattle.storing.specs.Handed.{handed};
ghost use Rattle.writer.specs.Creation.{Creates};
ghost use Rattle.writer.specs.Answers.{Appends};
ghost use Rattle.batch.specs.Batch.{laid, batch};
ghost use Rattle.batch.specs.Answers.{AppendsBatch};
ghost use Rattle.update.specs.Answers.{update_in, Updates};
ghost use Rattle.classic.specs.Answers.{settings_from};

use classic::{Appended, Batched, ClassicSettings};

// Writes the first record of a file with no entries. Answers 0, or the refusal.
#[unsafe(no_mangle)]
pub extern "C" fn classic_create(file: &mut [u8], settings: ClassicSettings) -> u32
    ensures { Creates file.old (settings_from settings) result file.new }
{
    classic::classic_create(file, settings)
}

// Appends an entry: its version, the application's index words, its sections by identifiers, lengths
// and bytes one after another, and its data. Answers its number, or the refusal.
#[unsafe(no_mangle)]
pub extern "C" fn classic_append(
    file: &mut [u8],
    version: i32,
    index: &[u8],
    ids: &[i32],
    lengths: &[i64],
    sections: &[u8],
    values: &[u8],
) -> Appended
    ensures { Appends file.old (handed version index ids lengths sections values) result file.new }
{
    classic::classic_append(file, version, index, ids, lengths, sections, values)
}

// Appends entries in turn, of which each kind is laid end to end, with a row of counts for each entry:
// index bytes, identifiers, lengths, section bytes, data bytes. Answers how many were accepted, and
// the refusal that ended it, if any.
#[unsafe(no_mangle)]
pub extern "C" fn classic_append_batch(
    file: &mut [u8],
    versions: &[i32],
    counts: &[[u64; 5]],
    index: &[u8],
    ids: &[i32],
    lengths: &[i64],
    sections: &[u8],
    values: &[u8],
) -> Batched
    ensures { AppendsBatch file.old (batch versions counts (laid index ids lengths sections values)) result file.new }
{
    classic::classic_append_batch(
        file, versions, counts, index, ids, lengths, sections, values,
    )
}

// Writes new content to the first section of an entry that has the identifier, and zeros over the rest
// of its space. Answers 0, or the refusal.
#[unsafe(no_mangle)]
pub extern "C" fn classic_update(
    file: &mut [u8],
    entry: u64,
    identifier: i32,
    content: &[u8],
) -> u32
    ensures { Updates file.old (update_in (record { 0 = entry }) identifier content.now) result file.new }
{
    classic::classic_update(file, entry, identifier, content)
}

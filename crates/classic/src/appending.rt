// Appending an entry, and a batch of entries, for C.
ghost use Rattle.storing.specs.Handed.{handed};
ghost use Rattle.writer.specs.Answers.{Appends};
ghost use Rattle.batch.specs.Batch.{laid, batch};
ghost use Rattle.batch.specs.Answers.{AppendsBatch};

use batch::{Batched, append_batch};
use writer::{Appended, append};

// Appends an entry: its version, the application's index words, its sections by identifiers, lengths
// and bytes one after another, and its data. Answers its number, or the refusal.
pub fn classic_append(
    file: &mut [u8],
    version: i32,
    index: &[u8],
    ids: &[i32],
    lengths: &[i64],
    sections: &[u8],
    values: &[u8],
) -> Appended
    ensures { Appends file.old (handed version index ids lengths sections values) result file.new }
{
    append(file, version, index, ids, lengths, sections, values)
}

// Appends entries in turn, of which each kind is laid end to end, with a row of counts for each entry:
// index bytes, identifiers, lengths, section bytes, data bytes. Answers how many were accepted, and
// the refusal that ended it, if any.
pub fn classic_append_batch(
    file: &mut [u8],
    versions: &[i32],
    counts: &[[u64; 5]],
    index: &[u8],
    ids: &[i32],
    lengths: &[i64],
    sections: &[u8],
    values: &[u8],
) -> Batched
    ensures { AppendsBatch file.old (batch versions counts (laid index ids lengths sections values)) result file.new }
{
    append_batch(
        file, versions, counts, index, ids, lengths, sections, values,
    )
}

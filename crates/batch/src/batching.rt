// Appending a batch to a file.
ghost use Rattle.batch.specs.Batch.{laid, batch};
ghost use Rattle.batch.specs.Answers.{AppendsBatch};

use super::answers::Batched;
use super::inner::append_in_turn;
use super::new_entries::{Columns, NewEntries};
use super::rules::batch_refusal;
use descriptor::{Validated, refusal_of, validate};

// Appends entries in turn, of which each kind is laid end to end with a row of counts for each entry:
// index bytes, identifiers, lengths, section bytes, data bytes. The first refusal ends it, and the
// entries before it stay. Refuses by 26 before all else where there are over 64 entries, not as many
// rows as versions, or a column that does not use up its array, and then changes no byte. The columns are lent one by one, as C
// has them.
pub fn append_batch(
    file: &mut [u8],
    versions: &[i32],
    counts: &[[u64; 5]],
    index: &[u8],
    ids: &[i32],
    lengths: &[i64],
    sections: &[u8],
    values: &[u8],
) -> Batched
    ensures { AppendsBatch file.old (batch versions counts (laid index ids lengths sections values)) result file.new }
{
    let entries = NewEntries {
        versions,
        counts,
        columns: Columns {
            index,
            ids,
            lengths,
            sections,
            values,
        },
    };
    if let Err(refusal) = batch_refusal(&entries) {
        return Batched {
            refusal: refusal.number(),
            accepted: 0,
        };
    }
    if versions.len() == 0 {
        return Batched {
            refusal: 0,
            accepted: 0,
        };
    }
    let validation = validate(file);
    let case = validation.numbers;
    let Validated::Numbers(d) = case else {
        return Batched {
            refusal: refusal_of(case),
            accepted: 0,
        };
    };
    append_in_turn(d, file, &entries)
}

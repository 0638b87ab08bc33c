// Appending a batch of entries through a record.
ghost use Rattle.outcome.specs.Outcome.{Answers};
ghost use Rattle.batch.specs.Batch.{laid, batch};
ghost use Rattle.through.specs.Answers.{batched_none, AppendsBatchThrough};

use super::keeping::kept_true;
use batch::inner::append_in_turn;
use batch::{Batched, Columns, NewEntries, batch_refusal};
use held::{OpenFile, held_refusal};

// The answer of `append_batch_through`: the record as it is afterwards, and what `append_batch` answers. The record is given back
// also where the batch is refused, so this is no Result.
#[derive(Clone, Copy)]
pub struct BatchedThrough {
    pub held: OpenFile,
    pub answer: Batched,
}

// The answer of a batch that is refused as a whole: the record stays, and no entry was accepted.
fn refused(held: OpenFile, refusal: u32) -> BatchedThrough
    ensures { Answers (batched_none held refusal) result }
{
    BatchedThrough {
        held,
        answer: Batched {
            refusal,
            accepted: 0,
        },
    }
}

// Appends entries in turn as `append_batch` does, through a record of the file. Refuses by 26, and then,
// also where there are no entries, by 27 where the record is not the one that the file has, and then
// record and file stay.
pub fn append_batch_through(
    held: OpenFile,
    file: &mut [u8],
    versions: &[i32],
    counts: &[[u64; 5]],
    index: &[u8],
    ids: &[i32],
    lengths: &[i64],
    sections: &[u8],
    values: &[u8],
) -> BatchedThrough
    ensures { AppendsBatchThrough file.old held (batch versions counts (laid index ids lengths sections values)) result file.new }
{
    let entries = NewEntries {
        versions,
        counts,
        columns: Columns {
            index,
            ids,
            lengths,
            sections,
            values,
        },
    };
    if let Err(counted) = batch_refusal(&entries) {
        return refused(held, counted.number());
    }
    let refusal = held_refusal(file, held);
    if refusal != 0 {
        return refused(held, refusal);
    }
    let answer = append_in_turn(held.numbers, file, &entries);
    let after = kept_true(file, held);
    BatchedThrough {
        held: after,
        answer,
    }
}

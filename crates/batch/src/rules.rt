// The rules of a batch, all numbered 26, tested in the order of their table.
ghost use Rattle.outcome.specs.Outcome.{Answers};
ghost use Rattle.outcome.specs.Refusal.{Refuses};
ghost use Rattle.batch.specs.Rules.{batch_refusal};
ghost use Rattle.batch.specs.Batch.{laid_of, batch_handed};
ghost use Rattle.batch.specs.Taking.{used_up};

use super::counts::Counts;
use super::new_entries::{Columns, NewEntries};
use outcome::Refusal;

// The entries of a batch, at most.
const ENTRIES_MAX: usize = 64;

// Whether the rows of counts use up each column exactly. A sum is never formed, so none can wrap: what is left of the
// columns is lessened by each row in turn.
fn use_up(counts: &[[u64; 5]], columns: Columns) -> bool
    ensures { Answers (used_up counts.now (laid_of columns.entry)) result }
{
    let mut left = columns.counts();
    for row in counts {
        let Some(rest) = left.less(Counts::from(*row)) else {
            return false;
        };
        left = rest;
    }
    left == Counts::default()
}

// The rules of a batch: 26 where one is broken.
#[tactic(auto, using(crate::proofs::Together::rows_used), unfolding(crate::specs::Rules::batch_refusal))]
pub fn batch_refusal(entries: &NewEntries) -> Result<(), Refusal>
    ensures { Refuses (batch_refusal (batch_handed entries.now)) result }
{
    Refusal::BatchCounts.unless(entries.versions.len() <= ENTRIES_MAX)?;
    Refusal::BatchCounts.unless(entries.counts.len() == entries.versions.len())?;
    Refusal::BatchCounts.unless(use_up(entries.counts, entries.columns))
}

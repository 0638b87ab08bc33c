// What is handed to a batch.
ghost use Rattle.std.specs.Prelude.{◌≡◌};
ghost use Rattle.outcome.specs.Outcome.{Answers};
ghost use Rattle.storing.specs.Handed.{handed_of};
ghost use Rattle.batch.specs.Batch.{laid_of};
ghost use Rattle.batch.specs.Taking.{counts_laid, Within, entry_taken, left_behind};

use super::counts::Counts;
use storing::NewEntry;

// Index words, identifiers, lengths, section bytes and data: of several entries, each kind laid end to end.
#[derive(Clone, Copy)]
pub struct Columns<'a> {
    pub index: &'a [u8],
    pub ids: &'a [i32],
    pub lengths: &'a [i64],
    pub sections: &'a [u8],
    pub values: &'a [u8],
}

// The entries of a batch: a version and a row of counts for each, and what is laid end to end. C lends the rows as they stand.
#[derive(Clone, Copy)]
pub struct NewEntries<'a> {
    pub versions: &'a [i32],
    pub counts: &'a [[u64; 5]],
    pub columns: Columns<'a>,
}

impl<'a> Columns<'a> {
    // How much is laid.
    pub(crate) fn counts(self) -> Counts
        ensures { Answers (counts_laid (laid_of self.entry)) result }
    {
        Counts {
            index: self.index.len() as u64,
            ids: self.ids.len() as u64,
            lengths: self.lengths.len() as u64,
            sections: self.sections.len() as u64,
            values: self.values.len() as u64,
        }
    }

    // The first entry, which takes so much of each column, and what it leaves for the entries behind it.
    pub(crate) fn split(self, version: i32, counts: Counts) -> (NewEntry<'a>, Columns<'a>)
        requires { Within counts (counts_laid (laid_of self)) }
        ensures entry { handed_of result.0 ≡ entry_taken version counts (laid_of self.entry) }
        ensures left { laid_of result.1 ≡ left_behind counts (laid_of self.entry) }
    {
        let (index, index_left) = self.index.split_at(counts.index as usize);
        let (ids, ids_left) = self.ids.split_at(counts.ids as usize);
        let (lengths, lengths_left) = self.lengths.split_at(counts.lengths as usize);
        let (sections, sections_left) = self.sections.split_at(counts.sections as usize);
        let (values, values_left) = self.values.split_at(counts.values as usize);
        let entry = NewEntry {
            version,
            index,
            ids,
            lengths,
            sections,
            values,
        };
        let left = Columns {
            index: index_left,
            ids: ids_left,
            lengths: lengths_left,
            sections: sections_left,
            values: values_left,
        };
        (entry, left)
    }
}

// How much of each column an entry of a batch takes.
ghost use Rattle.std.specs.Prelude.{◌≡◌, SomeIff};
ghost use Rattle.batch.specs.Taking.{counts_of, Within, less};

// Index bytes, identifiers, lengths, section bytes and data bytes.
#[derive(Clone, Copy, Default, PartialEq, Eq)]
pub(crate) struct Counts {
    pub index: u64,
    pub ids: u64,
    pub lengths: u64,
    pub sections: u64,
    pub values: u64,
}

impl From<[u64; 5]> for Counts {
    ghost from_gives = { λ row counts. counts ≡ counts_of row };

    fn from(row: [u64; 5]) -> Counts {
        let [index, ids, lengths, sections, values] = row;
        Counts {
            index,
            ids,
            lengths,
            sections,
            values,
        }
    }
}

impl Counts {
    // What is left once an entry has taken its own, where there is as much.
    pub(crate) fn less(self, taken: Counts) -> Option<Counts>
        ensures { SomeIff result (Within taken self) (less self taken) }
    {
        Some(Counts {
            index: self.index.checked_sub(taken.index)?,
            ids: self.ids.checked_sub(taken.ids)?,
            lengths: self.lengths.checked_sub(taken.lengths)?,
            sections: self.sections.checked_sub(taken.sections)?,
            values: self.values.checked_sub(taken.values)?,
        })
    }
}

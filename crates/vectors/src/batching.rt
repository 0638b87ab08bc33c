// The call that appends a batch of entries.
use super::Run;
use super::command::Way;
use super::holding::{Held, end_call};
use super::lists::{Handed, Lists, MOST};
use super::printing::Case;
use super::reading::{Label, Reader, at_most, int4s, padded};
use classic::{Batched, OpenFile, append_batch, append_batch_through};
use std::io;

// Reads the counts that a line lists into rows, one for each entry, as many as there are. It is a call of its own, as are the commands
// that read lists, so that what one of them holds does not add to the stack of the others.
#[inline(never)]
fn read_rows(lists: &mut Reader, rows: &mut [[u64; 5]]) {
    if !lists.labelled(Label::Counts) {
        return;
    }
    for row in rows {
        for place in row {
            let Some(number) = lists.number() else {
                return;
            };
            *place = number.cast_unsigned();
        }
    }
}

// Appends a batch, through the record held or without it.
fn append_rows(
    way: Way,
    held: &mut Held,
    file: &mut [u8],
    versions: &[i32],
    rows: &[[u64; 5]],
    handed: Handed,
) -> Batched {
    let Handed {
        ids,
        lengths,
        index,
        sections,
        values,
    } = handed;
    match way {
        Way::Alone => append_batch(file, versions, rows, index, ids, lengths, sections, values),
        Way::Through => {
            let before = OpenFile::from(*held);
            let appended = append_batch_through(
                before, file, versions, rows, index, ids, lengths, sections, values,
            );
            *held = Held::from(appended.held);
            appended.answer
        }
    }
}

impl Run {
    // Writes the line of a batch: how many entries were accepted, the refusal, and where there were none whether bytes changed.
    fn batched(&self, case: Case, answer: Batched) -> io::Result<()> {
        case.begin("batch")?;
        print!(case.out; " accepted {}", answer.accepted)?;
        if answer.refusal != 0 {
            print!(case.out; " refused {}", answer.refusal)?;
        }
        if answer.accepted == 0 {
            self.room.compare(case.out, 0)?;
        }
        Ok(())
    }

    // Appends a batch: the line of a case that has a name, or of a refusal. The line hands in how many versions and rows of
    // counts, the bytes of index, sections and data, then lists behind their labels.
    #[inline(never)]
    pub(crate) fn batch(
        &mut self,
        case: Case,
        way: Way,
        versions: i64,
        rows: i64,
        counts: [i64; 3],
        lists: Reader,
    ) -> io::Result<()> {
        let mut lists = lists;
        self.room.copy();
        let held_before = self.held;
        let listed = int4s(case.out, &lists.list::<MOST>(Label::Versions))?;
        let all = padded::<i32, MOST>(listed.as_slice());
        let versions = &all[..at_most(case.out, MOST, versions)?];
        let mut table = [[0; 5]; MOST];
        read_rows(&mut lists, &mut table);
        let rows = &table[..at_most(case.out, MOST, rows)?];
        let lists = Lists::read(case.out, lists)?;
        let handed = lists.handed(case.out, counts)?;
        let mut held = held_before;
        let lent = self.room.lent.count;
        let file = &mut self.room.bytes[..lent];
        let answer = append_rows(way, &mut held, file, versions, rows, handed);
        self.held = held;
        if case.name.is_empty() && answer.refusal == 0 {
            return Ok(());
        }
        self.batched(case, answer)?;
        end_call(case, way, held_before, self.held, self.room.file())
    }
}

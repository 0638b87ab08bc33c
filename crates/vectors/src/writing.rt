// The calls that change a file: create, append and update.
use super::Run;
use super::command::Way;
use super::holding::{Held, end_call};
use super::lists::{Handed, Lists, PART, listed_bytes};
use super::printing::Case;
use super::reading::{Reader, at_most, int4};
use classic::{
    Appended, EntryNumber, OpenFile, Settings, append, append_through, create, update_section,
    update_through, validate,
};
use std::io;

// Appends an entry, through the record held or without it.
fn append_entry(
    way: Way,
    held: &mut Held,
    file: &mut [u8],
    version: i32,
    handed: Handed,
) -> Appended {
    let Handed {
        ids,
        lengths,
        index,
        sections,
        values,
    } = handed;
    match way {
        Way::Alone => append(file, version, index, ids, lengths, sections, values),
        Way::Through => {
            let before = OpenFile::from(*held);
            let appended = append_through(
                before, file, version, index, ids, lengths, sections, values,
            );
            *held = Held::from(appended.held);
            appended.answer
        }
    }
}

// Rewrites a section, through the record held or without it, and answers the refusal.
fn update_content(
    way: Way,
    held: &mut Held,
    file: &mut [u8],
    number: EntryNumber,
    identifier: i32,
    content: &[u8],
) -> u32 {
    match way {
        Way::Alone => update_section(file, number, identifier, content),
        Way::Through => {
            let before = OpenFile::from(*held);
            let updated = update_through(before, file, number, identifier, content);
            *held = Held::from(updated.held);
            updated.answer
        }
    }
}

impl Run {
    // Creates a file in the lent bytes: the line of a case that has a name, or of a refusal. Of an accepted file the bytes
    // behind the first record are compared.
    #[inline(never)]
    pub(crate) fn create(&mut self, case: Case, settings: Settings) -> io::Result<()> {
        self.room.copy();
        let lent = self.room.lent.count;
        let refusal = create(&mut self.room.bytes[..lent], settings);
        if case.name.is_empty() && refusal == 0 {
            return Ok(());
        }
        case.begin("create")?;
        if refusal != 0 {
            print!(case.out; " refused {refusal}")?;
            self.room.compare(case.out, 0)?;
            return println!(case.out);
        }
        print!(case.out; " accepted")?;
        let words = usize::try_from(settings.reclen).unwrap_or(0);
        self.room.compare(case.out, 4 * words)?;
        println!(case.out; " validate {}", validate(self.room.file()).refusal)
    }

    // Appends an entry: the line of a case that has a name, or of a refusal. The line hands in a version, the bytes of index,
    // sections and data, then lists behind their labels.
    #[inline(never)]
    pub(crate) fn append(
        &mut self,
        case: Case,
        way: Way,
        version: i64,
        counts: [i64; 3],
        lists: Reader,
    ) -> io::Result<()> {
        self.room.copy();
        let held_before = self.held;
        let version = int4(case.out, version)?;
        let lists = Lists::read(case.out, lists)?;
        let handed = lists.handed(case.out, counts)?;
        let mut held = held_before;
        let lent = self.room.lent.count;
        let file = &mut self.room.bytes[..lent];
        let answer = append_entry(way, &mut held, file, version, handed);
        self.held = held;
        if case.name.is_empty() && answer.refusal == 0 {
            return Ok(());
        }
        case.begin("append")?;
        if answer.refusal == 0 {
            print!(case.out; " entry {}", answer.number.0)?;
        } else {
            print!(case.out; " refused {}", answer.refusal)?;
            self.room.compare(case.out, 0)?;
        }
        end_call(case, way, held_before, self.held, self.room.file())
    }

    // Updates a section: the line of a case that has a name, or of a refusal. The line hands in the entry, the identifier, the
    // bytes of the new content, then its words behind their label.
    #[inline(never)]
    pub(crate) fn update(
        &mut self,
        case: Case,
        way: Way,
        asked: i64,
        identifier: i64,
        count: i64,
        lists: Reader,
    ) -> io::Result<()> {
        self.room.copy();
        let held_before = self.held;
        let bytes = listed_bytes::<PART>(case.out, lists)?;
        let count = at_most(case.out, PART, count)?;
        let identifier = int4(case.out, identifier)?;
        let number = EntryNumber(asked.cast_unsigned());
        let content = &bytes[..count];
        let mut held = held_before;
        let lent = self.room.lent.count;
        let file = &mut self.room.bytes[..lent];
        let refusal = update_content(way, &mut held, file, number, identifier, content);
        self.held = held;
        if case.name.is_empty() && refusal == 0 {
            return Ok(());
        }
        case.begin("update")?;
        if refusal == 0 {
            print!(case.out; " accepted")?;
        } else {
            print!(case.out; " refused {refusal}")?;
            self.room.compare(case.out, 0)?;
        }
        end_call(case, way, held_before, self.held, self.room.file())
    }
}

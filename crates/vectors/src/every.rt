// Every call on one file.
use super::Run;
use super::printing::Case;
use classic::{
    EntryNumber, ExtensionNumber, Open, append, check_order, data_array_refusal, extension_of,
    index_words_refusal, open_entry, section_refusal, validate,
};
use std::io;

// The refusal of an open, 0 for numbers.
fn open_refusal(file: &[u8], number: EntryNumber) -> u32 {
    match open_entry(file, number).answer {
        Open::Numbers(..) => 0,
        Open::Refused(refusal) => refusal,
    }
}

// Writes the refusals of the calls that read; 0 stands for accepted.
fn print_refusals(case: Case, file: &[u8], asked: u64) -> io::Result<()> {
    let number = EntryNumber(asked);
    case.begin("every call,")?;
    print!(case.out; " validate {}", validate(file).refusal)?;
    print!(case.out;
        " extension {}",
        extension_of(file, ExtensionNumber(asked)).refusal
    )?;
    print!(case.out; " open {}", open_refusal(file, number))?;
    print!(case.out; " index {}", index_words_refusal(file, number))?;
    print!(case.out; " section {}", section_refusal(file, number, 7))?;
    print!(case.out; " data {}", data_array_refusal(file, number))?;
    let checked = check_order(file);
    print!(case.out; " check {} {}", checked.entry.0, checked.refusal)
}

impl Run {
    // Every call on the lent bytes, for an entry and an extension of one number.
    pub(crate) fn every(&mut self, case: Case, asked: u64) -> io::Result<()> {
        print_refusals(case, self.room.file(), asked)?;
        self.room.copy();
        let lent = self.room.lent.count;
        let appended = append(
            &mut self.room.bytes[..lent],
            1,
            &[9, 0, 0, 0],
            &[],
            &[],
            &[],
            &[],
        );
        print!(case.out; " append {}", appended.refusal)?;
        self.room.compare(case.out, 0)?;
        println!(case.out)
    }
}

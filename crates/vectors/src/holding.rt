// The record that is held: its 44 numbers, in the order that C has.
ghost use Rattle.std.specs.Prelude.{◌≤◌};

use super::command::Way;
use super::first_record::print_record;
use super::printing::Case;
use classic::{DescriptorNumbers, EntryNumber, OpenFile, RecordNumber, WordNumber, open_file_of};
use std::io;
use words::ByteOrder;

// The numbers of a record: those of the first record from order to gex, the 16 addresses, the 16 totals.
#[derive(Clone, Copy, PartialEq, Eq)]
pub(crate) struct Held {
    numbers: [u64; 12],
    addresses: [u64; 16],
    totals: [u64; 16],
}

impl From<OpenFile> for Held {
    fn from(file: OpenFile) -> Held {
        let d = file.numbers;
        let numbers = [
            d.order.0,
            d.reclen,
            d.kind,
            d.vind,
            d.lind,
            d.flags,
            d.xnext.0,
            d.nextrec.0,
            d.nextword.0,
            d.lex1,
            d.nex,
            d.gex,
        ];
        let addresses = file.addresses;
        let addresses = addresses.map(|address| address.0);
        let totals = file.totals;
        Held {
            numbers,
            addresses,
            totals,
        }
    }
}

impl From<Held> for OpenFile {
    fn from(held: Held) -> OpenFile {
        let Held {
            numbers,
            addresses,
            totals,
        } = held;
        let [
            order,
            reclen,
            kind,
            vind,
            lind,
            flags,
            xnext,
            nextrec,
            nextword,
            lex1,
            nex,
            gex,
        ] = numbers;
        let numbers = DescriptorNumbers {
            order: ByteOrder(order),
            reclen,
            kind,
            vind,
            lind,
            flags,
            xnext: EntryNumber(xnext),
            nextrec: RecordNumber(nextrec),
            nextword: WordNumber(nextword),
            lex1,
            nex,
            gex,
        };
        let addresses = addresses.map(RecordNumber);
        OpenFile {
            numbers,
            addresses,
            totals,
        }
    }
}

impl Held {
    // The record of no file, all zeros.
    pub(crate) fn new() -> Held {
        Held {
            numbers: [0; 12],
            addresses: [0; 16],
            totals: [0; 16],
        }
    }

    // The record of a file; zeros if the file is refused.
    pub(crate) fn of(file: &[u8]) -> Held {
        Held::from(open_file_of(file).file)
    }

    // Sets the number in one of the 44 fields.
    pub(crate) fn set(&mut self, field: usize, number: u64)
        requires { field ≤ 43 }
    {
        match field {
            0..12 => self.numbers[field] = number,
            12..28 => self.addresses[field - 12] = number,
            _ => self.totals[field - 28] = number,
        }
    }
}

// Opens a file and holds its record: the line of a case that has a name.
pub(crate) fn hold(case: Case, held: &mut Held, file: &[u8]) -> io::Result<()> {
    let answer = open_file_of(file);
    *held = Held::from(answer.file);
    if case.name.is_empty() {
        return Ok(());
    }
    print_record(case, answer)
}

// Ends the line of a call. Of one through the record it says whether the record changed, and whether it is the one that the
// file has.
pub(crate) fn end_call(
    case: Case,
    way: Way,
    before: Held,
    held: Held,
    file: &[u8],
) -> io::Result<()> {
    if let Way::Through = way {
        let answer = open_file_of(file);
        let holds = answer.refusal == 0 && held == Held::from(answer.file);
        let change = if held == before {
            "unchanged"
        } else {
            "changed"
        };
        print!(case.out; " record {change} and {holds}")?;
    }
    println!(case.out)
}

// The record of an open file, made from its first record.
ghost use Rattle.outcome.specs.Outcome.{Answers};
ghost use Rattle.held.specs.Record.{no_open_file, open_file_of};

use super::answers::{OpenFile, OpenFileAnswer};
use descriptor::inner::{addresses_of, admit};
use descriptor::{Validated, refusal_of};

// A refusal, with a record of zeros.
fn no_open_file(refusal: u32) -> OpenFileAnswer
    ensures { Answers (no_open_file refusal) result }
{
    OpenFileAnswer {
        refusal,
        file: OpenFile::default(),
    }
}

// The record of a file, or the first rule of 1 to 11 and 29 that the file breaks.
pub fn open_file_of(file: &[u8]) -> OpenFileAnswer
    ensures { Answers (open_file_of file.now) result }
{
    let mut totals = [0u64; 16];
    let case = admit(file, &mut totals);
    let Validated::Numbers(d) = case else {
        return no_open_file(refusal_of(case));
    };
    let addresses = addresses_of(d.order, file, d.nex);
    let file = OpenFile {
        numbers: d,
        addresses,
        totals,
    };
    OpenFileAnswer { refusal: 0, file }
}

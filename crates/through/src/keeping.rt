// Keeping a record true: what it is after a call that works from it.
ghost use Rattle.outcome.specs.Outcome.{Answers};
ghost use Rattle.held.specs.Record.{open_file_of};
ghost use Rattle.through.specs.Bounds.{Grown};

use descriptor::inner::{addresses_of, numbers_of};
use held::OpenFile;
use held::inner::open_file_with;

// The record of the file that a call left. The totals are those before it, unless it made an extension.
pub(crate) fn kept_true(file: &[u8], held: OpenFile) -> OpenFile
    requires { Grown file.now held }
    ensures { Answers (open_file_of file.now).file result }
{
    let before = held.numbers;
    let numbers = numbers_of(file);
    let addresses = addresses_of(numbers.order, file, numbers.nex);
    if numbers.nex != before.nex {
        return open_file_with(numbers, addresses);
    }
    let totals = held.totals;
    OpenFile {
        numbers,
        addresses,
        totals,
    }
}

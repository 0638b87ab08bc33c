// The record of a file whose numbers and addresses are at hand, as after validating it.
ghost use Rattle.outcome.specs.Outcome.{Answers};
ghost use Rattle.descriptor.specs.Bounds.{Settled};
ghost use Rattle.held.specs.Record.{open_file_with};

use super::answers::OpenFile;
use descriptor::DescriptorNumbers;
use geometry::{Growth, RecordNumber, totals_of};

// The record of these numbers and addresses.
pub fn open_file_with(d: DescriptorNumbers, addresses: [RecordNumber; 16]) -> OpenFile
    requires { Settled d }
    ensures { Answers (open_file_with d addresses) result }
{
    OpenFile {
        numbers: d,
        addresses,
        totals: totals_of(Growth::new(d.lex1, d.gex), d.nex),
    }
}

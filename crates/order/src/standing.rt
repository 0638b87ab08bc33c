// Where an entry stands in the index, carried from each entry to the next.
ghost use Rattle.outcome.specs.Outcome.{Answers};
ghost use Rattle.descriptor.specs.FirstRecord.{addresses_of};
ghost use Rattle.descriptor.specs.Bounds.{TotalsOf};
ghost use Rattle.order.specs.Standing.{standing_of, Follows};

use descriptor::DescriptorNumbers;
use descriptor::inner::aex_in;
use geometry::{EntryNumber, ExtensionNumber, WordNumber, position, total_before};

// Where an entry stands in the index: its extension, how many entries the extensions before it and up to it hold
// together, and the position of its slot. Before the first entry all is 0.
#[derive(Clone, Copy, Default)]
pub struct Standing {
    pub extension: ExtensionNumber,
    pub before: u64,
    pub total: u64,
    pub slot: u64,
}

// The standing of an entry in use, from that of the entry before it: in the same extension the next slot, and where that
// extension is used up the first slot of the next one.
pub(crate) fn standing_next(
    file: &[u8],
    d: DescriptorNumbers,
    totals: &[u64],
    at: Standing,
    number: EntryNumber,
) -> Standing
    requires { Follows file.now d number at × TotalsOf d totals.now }
    ensures { Answers (standing_of d (addresses_of file.now d.nex) number) result }
{
    if at.total < number.0 {
        let next = ExtensionNumber(at.extension.0 + 1);
        let first = aex_in(d.order, file, next);
        return Standing {
            extension: next,
            before: at.total,
            total: total_before(totals, ExtensionNumber(next.0 + 1)),
            slot: position(d.reclen, first, WordNumber(1)),
        };
    }
    Standing {
        slot: at.slot + d.lind,
        ..at
    }
}

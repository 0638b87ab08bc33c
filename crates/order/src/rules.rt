// Rule 25 for one entry.
ghost use Rattle.outcome.specs.Outcome.{Answers};
ghost use Rattle.geometry.specs.Area.{slot_of};
ghost use Rattle.descriptor.specs.FirstRecord.{addresses_of, growth_in};
ghost use Rattle.order.specs.Standing.{StandsIn};
ghost use Rattle.order.specs.Order.{starts_in_order, ends_in_order};

use super::standing::Standing;
use descriptor::DescriptorNumbers;
use descriptor::inner::aex_in;
use geometry::{EntryNumber, ExtensionNumber, WordNumber, area_records, position};

// Whether an entry with that standing starts after its extension's area, where it is the first there, or after the entry
// before it, which ends at `before`.
pub(crate) fn starts_in_order(
    file: &[u8],
    d: DescriptorNumbers,
    at: Standing,
    number: EntryNumber,
    before: u64,
    start: u64,
) -> bool
    requires { StandsIn file.now d number at }
    ensures { Answers (starts_in_order d (addresses_of file.now d.nex) (slot_of (growth_in d) d.nex d.lind number) before start) result }
{
    if number.0 == at.before + 1 {
        let records = area_records(at.total - at.before, d.lind, d.reclen);
        return at.slot + records * d.reclen <= start;
    }
    before <= start
}

// Whether an entry with that standing ends before the next extension's area, where it is its extension's last.
pub(crate) fn ends_in_order(
    file: &[u8],
    d: DescriptorNumbers,
    at: Standing,
    number: EntryNumber,
    end: u64,
) -> bool
    requires { StandsIn file.now d number at }
    ensures { Answers (ends_in_order d (addresses_of file.now d.nex) (slot_of (growth_in d) d.nex d.lind number) end) result }
{
    if number.0 != at.total {
        return true;
    }
    if d.nex <= at.extension.0 {
        return true;
    }
    let next = aex_in(d.order, file, ExtensionNumber(at.extension.0 + 1));
    end <= position(d.reclen, next, WordNumber(1))
}

// Whether a new index area is needed, where it goes, and where the entry starts.
ghost use Rattle.std.specs.Prelude.{◌≡◌, ◌+◌, ◌^◌, ◌≤◌, ◌<◌};
ghost use Rattle.outcome.specs.Outcome.{Answers};
ghost use Rattle.geometry.specs.Growth.{capacity_of};
ghost use Rattle.descriptor.specs.FirstRecord.{free_of, growth_in};
ghost use Rattle.descriptor.specs.Bounds.{Settled, Free, TotalsOf};
ghost use Rattle.placing.specs.Placing.{full, new_area, after_new_area, entry_start};
ghost use Rattle.placing.specs.Bounds.{Extensible};

use descriptor::DescriptorNumbers;
use descriptor::inner::free_position;
use geometry::{
    ExtensionNumber, Growth, RecordNumber, WordNumber, area_records, capacity, entries_before,
    position, records_for, total_before,
};

// Whether the extensions in use are full, by their totals.
pub(crate) fn is_full(d: DescriptorNumbers, totals: &[u64]) -> bool
    requires { Settled d × TotalsOf d totals.now × (1 ≤ d.xnext.0) }
    ensures { Answers (full d) result }
{
    entries_before(d.xnext) == total_before(totals, ExtensionNumber(d.nex + 1))
}

// The first record of a new index area.
pub fn new_area(d: DescriptorNumbers) -> RecordNumber
    requires { Settled d × Free d × (free_of d ≤ 2 ^ 28) }
    ensures { Answers (new_area d) result }
{
    RecordNumber(records_for(free_position(d), d.reclen) + 1)
}

// The record after a new index area.
pub(crate) fn after_new_area(d: DescriptorNumbers) -> RecordNumber
    requires { Settled d × Free d × (free_of d ≤ 2 ^ 28) × (d.nex < 16) × (capacity_of (growth_in d) (d.nex + 1) ≤ 16384) }
    ensures { Answers (after_new_area d) result }
{
    let entries = capacity(Growth::new(d.lex1, d.gex), ExtensionNumber(d.nex + 1));
    RecordNumber(new_area(d).0 + area_records(entries, d.lind, d.reclen))
}

// The position where the entry starts. Here and below `extends` says whether the extensions in use are
// full, so that a new one is made.
pub(crate) fn entry_start(d: DescriptorNumbers, extends: bool) -> u64
    requires { Settled d × Free d × (free_of d ≤ 2 ^ 28) × (extends ≡ full d) × Extensible d }
    ensures { Answers (entry_start d) result }
{
    if extends {
        return position(d.reclen, after_new_area(d), WordNumber(1));
    }
    free_position(d)
}

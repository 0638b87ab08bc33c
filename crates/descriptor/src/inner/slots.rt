// The slot of an entry among those of the extensions in use.
ghost use Rattle.std.specs.Prelude.{◌≤◌};
ghost use Rattle.outcome.specs.Outcome.{Answers};
ghost use Rattle.geometry.specs.Growth.{total_of};
ghost use Rattle.geometry.specs.Area.{slot_of};
ghost use Rattle.descriptor.specs.FirstRecord.{growth_in};
ghost use Rattle.descriptor.specs.Bounds.{Settled, TotalsOf};

use crate::numbers::DescriptorNumbers;
use geometry::{EntryNumber, ExtensionNumber, Slot, total_before};

// The slot of an entry, by the totals of the extensions in use.
pub fn slot_in_use(d: DescriptorNumbers, totals: &[u64], entry: EntryNumber) -> Slot
    requires { Settled d × TotalsOf d totals.now × (1 ≤ entry.0) × (entry.0 ≤ total_of (growth_in d) d.nex) }
    ensures { Answers (slot_of (growth_in d) d.nex d.lind entry) result }
{
    let passed = totals.iter().position(|total| entry.0 <= *total).unwrap();
    let extension = ExtensionNumber(passed as u64 + 1);
    let place = entry.0 - total_before(totals, extension);
    Slot {
        extension,
        place,
        offset: (place - 1) * d.lind,
    }
}

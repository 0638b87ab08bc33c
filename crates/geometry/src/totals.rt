// The running totals of the capacities: how many entries the extensions up to each hold together.
ghost use Rattle.std.specs.Prelude.{◌+◌, ◌≤◌, length};
ghost use Rattle.outcome.specs.Outcome.{Answers};
ghost use Rattle.geometry.specs.Growth.{Growing};
ghost use Rattle.geometry.specs.Totals.{totals_of, total_before};

use super::growth::Growth;
use super::units::{ExtensionNumber, table_index};
use super::walk::Walk;

// The totals of the first `count` extensions, in 16 places, the others zero. The library has no heap, so the table has a place
// for each extension that a file may have.
pub fn totals_of(growth: Growth, count: u64) -> [u64; 16]
    requires { (count ≤ 16) × Growing growth count }
    ensures { Answers (totals_of growth count) result }
{
    let mut totals = [0u64; 16];
    let mut walk = Walk::new(growth);
    for at in 0..count as usize {
        totals[at] = walk.before + walk.capacity;
        walk = walk.next(growth);
    }
    totals
}

// How many entries the extensions before one hold together, by a table of totals.
#[tactic(auto, using(crate::proofs::TotalTables::before_extension))]
pub fn total_before(totals: &[u64], extension: ExtensionNumber) -> u64
    requires { extension.0 ≤ length totals.now + 1 }
    ensures { Answers (total_before totals.now extension.0) result }
{
    if extension.0 <= 1 {
        return 0;
    }
    let before = table_index(ExtensionNumber(extension.0 - 1));
    totals[before]
}

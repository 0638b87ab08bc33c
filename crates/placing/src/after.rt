// The numbers of a file after an append.
ghost use Rattle.std.specs.Prelude.{◌≡◌, ◌^◌, ◌≤◌, ◌<◌};
ghost use Rattle.outcome.specs.Outcome.{Answers};
ghost use Rattle.descriptor.specs.Bounds.{Settled};
ghost use Rattle.placing.specs.Placing.{full, nex_after, numbers_after};

use descriptor::DescriptorNumbers;
use geometry::{EntryNumber, place_at};

// The extensions in use after an append.
#[tactic(auto, unfolding(crate::specs::Placing::nex_after))]
fn nex_after(d: DescriptorNumbers, extends: bool) -> u64
    requires { (d.nex ≤ 16) × (extends ≡ full d) }
    ensures { Answers (nex_after d) result }
{
    if extends { d.nex + 1 } else { d.nex }
}

// The numbers after an append whose entry ends at a position.
#[tactic(auto, unfolding(crate::specs::Placing::numbers_after))]
pub fn numbers_after(d: DescriptorNumbers, extends: bool, end: u64) -> DescriptorNumbers
    requires { Settled d × (d.xnext.0 < 2 ^ 63) × (extends ≡ full d) × (end < 2 ^ 32) }
    ensures { Answers (numbers_after d end) result }
{
    let next = place_at(d.reclen, end);
    DescriptorNumbers {
        xnext: EntryNumber(d.xnext.0 + 1),
        nextrec: next.record,
        nextword: next.word,
        nex: nex_after(d, extends),
        ..d
    }
}

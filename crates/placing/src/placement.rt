// The place of an entry of so many words.
ghost use Rattle.std.specs.Prelude.{◌^◌, ◌≤◌, ◌<◌};
ghost use Rattle.outcome.specs.Refusal.{Gives};
ghost use Rattle.descriptor.specs.FirstRecord.{free_of};
ghost use Rattle.descriptor.specs.Bounds.{Settled, Free, TotalsOf};
ghost use Rattle.placing.specs.Rules.{placement_refusal};
ghost use Rattle.placing.specs.Placement.{placed_at};

use super::areas::{entry_start, is_full};
use super::rules::extension_refusal;
use descriptor::DescriptorNumbers;
use outcome::Refusal;

// Where an entry goes: whether a new extension is made for it, and the position where it starts. The first follows from the
// numbers and the totals, and is kept so that the totals are not looked at again.
#[derive(Clone, Copy)]
pub struct Placement {
    pub extends: bool,
    pub start: u64,
}

// The place of an entry of `nword` words in a file of so many bytes, of admitted numbers and these
// totals, or the refusal, 23 or 24.
pub fn place(
    bytes: u64,
    d: DescriptorNumbers,
    totals: &[u64],
    nword: u64,
) -> Result<Placement, Refusal>
    requires { Settled d × Free d × (free_of d ≤ 2 ^ 28) × (1 ≤ d.xnext.0) × TotalsOf d totals.now × (nword < 2 ^ 63) }
    ensures { Gives (placement_refusal bytes d nword) (placed_at d) result }
{
    let extends = is_full(d, totals);
    extension_refusal(d, extends)?;
    let start = entry_start(d, extends);
    let end = start + nword;
    if bytes / 4 < end {
        return Err(Refusal::AppendRoom);
    }
    Ok(Placement { extends, start })
}

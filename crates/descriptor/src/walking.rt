// The one walk over the extensions in use, by which a file is validated.
ghost use Rattle.std.specs.Prelude.{◌≡◌, ◌+◌, ◌*◌, ◌≤◌, length, replicate};
ghost use Rattle.outcome.specs.Outcome.{AnswersAndLeaves};
ghost use Rattle.layout.specs.FileCode.{byte_order_of};
ghost use Rattle.descriptor.specs.FirstRecord.{addresses_of};
ghost use Rattle.descriptor.specs.Walking.{walked_of, walked_totals};
ghost use Rattle.descriptor.specs.Bounds.{Limited};

use super::inner::aex_in;
use super::inner::areas::after_area;
use super::numbers::DescriptorNumbers;
use geometry::{Growth, RecordNumber, Walk};

// What the walk finds where no capacity is over the limit: the record after the last index area, where the areas
// keep their order; and how many entries the extensions in use hold together, without the last and with it.
#[derive(Clone, Copy)]
pub struct Walked {
    pub after: Option<RecordNumber>,
    pub before: u64,
    pub total: u64,
}

// Walks over the extensions in use, and puts their totals into the table, which is zero before. Where a capacity is
// over the limit nothing is found, and the table is left zero.
#[tactic(auto, unfolding(crate::specs::Walking::walked_of, crate::specs::Walking::walked_totals))]
pub(crate) fn walk_extensions(
    file: &[u8],
    d: DescriptorNumbers,
    totals: &mut [u64],
) -> Option<Walked>
    requires { Limited d × (d.order ≡ byte_order_of file.now) × (4 * (14 + 2 * d.nex) ≤ length file.now) × (totals.old ≡ replicate 16 0) }
    ensures { AnswersAndLeaves (walked_of d (addresses_of file.now d.nex)) (walked_totals d) result totals.new }
{
    let growth = Growth::new(d.lex1, d.gex);
    let mut after = Some(RecordNumber(2));
    let mut before = 0;
    let mut walk = Walk::new(growth);
    for passed in 0..d.nex {
        if Growth::CAPACITY_MAX < walk.capacity {
            totals.fill(0);
            return None;
        }
        let first = aex_in(d.order, file, walk.extension);
        after = after_area(d, after, first, walk.capacity);
        before = walk.before;
        totals[passed as usize] = walk.before + walk.capacity;
        walk = walk.next(growth);
    }
    Some(Walked {
        after,
        before,
        total: walk.before,
    })
}

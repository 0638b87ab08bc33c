// Where the index areas of a file start and end, and rule 11.
ghost use Rattle.std.specs.Prelude.{◌≡◌, ◌+◌, ◌*◌, ◌^◌, ◌≤◌, ◌<◌, length, IfSome};
ghost use Rattle.outcome.specs.Outcome.{Answers};
ghost use Rattle.geometry.specs.Units.{index_of};
ghost use Rattle.layout.specs.FileCode.{byte_order_of};
ghost use Rattle.descriptor.specs.FirstRecord.{aex_at, free_of};
ghost use Rattle.descriptor.specs.Walking.{area_added, areas_hold};
ghost use Rattle.descriptor.specs.Bounds.{Limited, Free};

use super::derived::free_position;
use crate::inner::reading::field_at;
use crate::numbers::DescriptorNumbers;
use geometry::{ExtensionNumber, RecordNumber, WordNumber, area_records, position_within};
use layout::first_record::aex_word;
use words::ByteOrder;

// The first record of an extension's index area, as the file has it.
pub fn aex_in(order: ByteOrder, file: &[u8], extension: ExtensionNumber) -> RecordNumber
    requires { (order ≡ byte_order_of file.now) × (1 ≤ extension.0) × (extension.0 ≤ 16) × (4 * (14 + 2 * extension.0) ≤ length file.now) }
    ensures { Answers (aex_at file.now (index_of extension)) result }
{
    RecordNumber(field_at(order, file, aex_word(extension)))
}

// The record after one area more, which starts at `first` and holds so many entries, where it does not start before
// `after`, the record after those before it.
#[tactic(auto, using(crate::proofs::AreaOrder::records_few), unfolding(crate::specs::Walking::area_added))]
pub(crate) fn after_area(
    d: DescriptorNumbers,
    after: Option<RecordNumber>,
    first: RecordNumber,
    capacity: u64,
) -> Option<RecordNumber>
    requires { Limited d × (capacity ≤ 16384) }
    ensures { Answers (area_added d after first capacity) result }
{
    let after = after?;
    if !words::at_least::<i64>(first.0, after.0) {
        return None;
    }
    Some(RecordNumber(first.0 + area_records(capacity, d.lind, d.reclen)))
}

// Whether the areas keep their order and end at or before the next free position, by the record after the
// last.
#[tactic(auto, unfolding(crate::specs::Walking::areas_hold))]
pub(crate) fn areas_hold(d: DescriptorNumbers, after: Option<RecordNumber>) -> bool
    requires { Limited d × Free d × (free_of d < 2 ^ 32) × IfSome after (λ r. 1 ≤ r.0) }
    ensures { Answers (areas_hold d after) result }
{
    let Some(after) = after else {
        return false;
    };
    position_within(d.reclen, after, WordNumber(1), free_position(d))
}

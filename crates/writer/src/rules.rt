// Rules 21 and 22, on what is handed to an append, tested in the order of their table.
ghost use Rattle.std.specs.Prelude.{◌&&◌, length, eqb};
ghost use Rattle.outcome.specs.Outcome.{Answers};
ghost use Rattle.outcome.specs.Refusal.{Refuses};
ghost use Rattle.geometry.specs.Units.{offset_of};
ghost use Rattle.descriptor.specs.Bounds.{Settled};
ghost use Rattle.storing.specs.Handed.{distinct, positive, sum_of, handed_of};
ghost use Rattle.writer.specs.Rules.{handed_refusal};

use descriptor::DescriptorNumbers;
use geometry::byte_offset;
use layout::entry_descriptor::PLACES;
use outcome::Refusal;
use storing::NewEntry;

// The length of a section, at least.
const LENGTH_MIN: i64 = 1;

// Whether no two identifiers are equal. One above the highest of those before it is new; only another is compared with
// each of them.
fn are_distinct(ids: &[i32]) -> bool
    ensures { Answers (distinct ids.now (length ids.now)) result }
{
    let mut highest = i32::MIN;
    for (i, identifier) in ids.iter().enumerate() {
        if highest < *identifier {
            highest = *identifier;
        } else if ids[..i].contains(identifier) {
            return false;
        }
    }
    true
}

// Whether each length is 1 or more, and so many bytes are the words of all of them together. The sum is never
// formed, so it cannot wrap: what is left of the bytes is lessened by each length in turn.
fn make_up(lengths: &[i64], bytes: usize) -> bool
    ensures { Answers (positive lengths.now (length lengths.now) && eqb bytes (offset_of (sum_of lengths.now))) result }
{
    if bytes % 4 != 0 {
        return false;
    }
    let mut left = (bytes / 4) as u64;
    for length in lengths {
        if *length < LENGTH_MIN {
            return false;
        }
        let Some(rest) = left.checked_sub(length.cast_unsigned()) else {
            return false;
        };
        left = rest;
    }
    left == 0
}

// Rules 21 and 22, on what is handed in.
#[tactic(auto, using(crate::proofs::HandedIn::number_low), unfolding(crate::specs::Rules::handed_refusal))]
pub(crate) fn handed_refusal(d: DescriptorNumbers, entry: &NewEntry) -> Result<(), Refusal>
    requires { Settled d }
    ensures { let h = handed_of entry.now in Refuses (handed_refusal d h.index h.ids h.lengths h.sections h.values) result }
{
    Refusal::AppendIndex.unless(entry.index.len() == byte_offset(d.lind - 3))?;
    Refusal::AppendParts.unless(entry.ids.len() <= PLACES)?;
    Refusal::AppendParts.unless(entry.lengths.len() == entry.ids.len())?;
    Refusal::AppendParts.unless(are_distinct(entry.ids))?;
    Refusal::AppendParts.unless(make_up(entry.lengths, entry.sections.len()))?;
    Refusal::AppendParts.unless(entry.values.len() % 4 == 0)
}

// What the crates above ask of an entry of validated numbers. The addresses are those that the file has.
ghost use Rattle.std.specs.Prelude.{◌≡◌, ◌+◌, ◌*◌, ◌≤◌, length};
ghost use Rattle.outcome.specs.Outcome.{Answers};
ghost use Rattle.outcome.specs.Refusal.{Gives};
ghost use Rattle.geometry.specs.Units.{entries_before};
ghost use Rattle.layout.specs.FileCode.{byte_order_of};
ghost use Rattle.descriptor.specs.FirstRecord.{addresses_of};
ghost use Rattle.descriptor.specs.Bounds.{AdmittedIn, TotalsOf};
ghost use Rattle.entry.specs.Opening.{slot_position_of, place_stored, entry_refusal, numbers_of};

use super::entered::Entered;
use super::rules::{content_refusal, head_refusal, start_refusal};
use descriptor::DescriptorNumbers;
use descriptor::inner::{aex_in, slot_in_use};
use geometry::{
    EntryNumber, Place, RecordNumber, WordNumber, byte_offset, entries_before, position,
};
use outcome::Refusal;
use pieces::{EntryWords, Piece, head_at};
use words::ByteOrder;

// The position of an entry's slot, by the totals of the extensions in use.
pub fn slot_position(file: &[u8], d: DescriptorNumbers, totals: &[u64], number: EntryNumber) -> u64
    requires { AdmittedIn file.now d (addresses_of file.now d.nex) × TotalsOf d totals.now × (1 ≤ number.0) × (number.0 ≤ entries_before d.xnext) }
    ensures { Answers (slot_position_of d (addresses_of file.now d.nex) number) result }
{
    let slot = slot_in_use(d, totals, number);
    let first = aex_in(d.order, file, slot.extension);
    position(d.reclen, first, WordNumber(1)) + slot.offset
}

// The place that is stored at a slot.
#[tactic(auto, unfolding(crate::specs::Opening::place_stored))]
fn place_stored(order: ByteOrder, file: &[u8], slot: u64) -> Place
    requires { (order ≡ byte_order_of file.now) × (4 * (slot + 3) ≤ length file.now) }
    ensures { Answers (place_stored file.now slot) result }
{
    Place {
        record: RecordNumber(words::read(order, file, byte_offset(slot))),
        word: WordNumber(words::read::<u32>(order, file, byte_offset(slot + 2)) as u64),
    }
}

// The numbers of an entry in use, by the position of its slot, or the first rule of 13 to 19 that it breaks.
pub fn enter_at(
    file: &[u8],
    d: DescriptorNumbers,
    slot: u64,
    number: EntryNumber,
) -> Result<Entered, Refusal>
    requires { AdmittedIn file.now d (addresses_of file.now d.nex) × (1 ≤ number.0) × (number.0 ≤ entries_before d.xnext)
        × (slot ≡ slot_position_of d (addresses_of file.now d.nex) number) }
    ensures { Gives (entry_refusal file.now d (addresses_of file.now d.nex) number) (numbers_of file.now d (addresses_of file.now d.nex) number) result }
{
    let place = place_stored(d.order, file, slot);
    start_refusal(d, place)?;
    let start = position(d.reclen, place.record, place.word);
    let head = head_at(d.order, file, start);
    head_refusal(file, d, start, head, number)?;
    let entry = EntryWords {
        order: d.order,
        file,
        start,
        nsec: head.nsec,
    };
    let array = Piece {
        address: head.adata,
        words: head.ldata,
    };
    content_refusal(&entry, head.nword, array)?;
    Ok(Entered {
        place,
        start,
        version: head.version,
        nsec: head.nsec,
        nword: head.nword,
        array,
    })
}

// The numbers of an entry, by its number and the totals of the extensions in use, or the first rule of 12 to 19 that it
// breaks. It is laid out in each of its callers, since as a call of its own it would copy the descriptor's numbers, right
// behind the stores of its caller, and the answer of `enter_at`.
#[inline(always)]
#[tactic(auto, using(crate::proofs::Entering::number_low, crate::proofs::Entering::number_high))]
pub fn enter(
    file: &[u8],
    d: DescriptorNumbers,
    totals: &[u64],
    number: EntryNumber,
) -> Result<Entered, Refusal>
    requires { AdmittedIn file.now d (addresses_of file.now d.nex) × TotalsOf d totals.now }
    ensures { Gives (entry_refusal file.now d (addresses_of file.now d.nex) number) (numbers_of file.now d (addresses_of file.now d.nex) number) result }
{
    if number.0 < 1 {
        return Err(Refusal::Number);
    }
    if entries_before(d.xnext) < number.0 {
        return Err(Refusal::Number);
    }
    let slot = slot_position(file, d, totals, number);
    enter_at(file, d, slot, number)
}

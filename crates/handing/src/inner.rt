// Where the parts of an entry of validated numbers stand.
ghost use Rattle.std.specs.Prelude.{◌+◌, ◌^◌, ◌<◌};
ghost use Rattle.outcome.specs.Outcome.{Answers};
ghost use Rattle.descriptor.specs.FirstRecord.{addresses_of};
ghost use Rattle.descriptor.specs.Bounds.{AdmittedIn, TotalsOf};
ghost use Rattle.entry.specs.Entered.{given};
ghost use Rattle.handing.specs.Parts.{index_part, section_in, section_part, data_part, no_part, words_from};
ghost use Rattle.handing.specs.Bounds.{Readable};

use super::place::PartPlace;
use descriptor::DescriptorNumbers;
use entry::Entered;
use entry::inner::{enter, enter_at, slot_position};
use geometry::{EntryNumber, byte_offset, entries_before, entry_position};
use outcome::Refusal;
use pieces::EntryWords;
use words::ByteOrder;

// A part with a refusal, or with nothing in it.
pub fn no_part(refusal: u32) -> PartPlace
    ensures { Answers (no_part refusal) result }
{
    PartPlace {
        refusal,
        ..PartPlace::default()
    }
}

// The part that holds a count of words from a position on.
fn words_from(position: u64, words: u64) -> PartPlace
    requires { position + words < 2 ^ 32 }
    ensures { Answers (words_from position words) result }
{
    let start = byte_offset(position);
    PartPlace {
        refusal: 0,
        start,
        end: start + byte_offset(words),
    }
}

// Where the application's words of an entry's index stand.
pub fn index_part(
    file: &[u8],
    d: DescriptorNumbers,
    totals: &[u64],
    number: EntryNumber,
) -> PartPlace
    requires { AdmittedIn file.now d (addresses_of file.now d.nex) × TotalsOf d totals.now }
    ensures { Answers (index_part file.now d (addresses_of file.now d.nex) number) result }
{
    if number.0 < 1 || entries_before(d.xnext) < number.0 {
        return no_part(Refusal::Number.number());
    }
    let slot = slot_position(file, d, totals, number);
    if let Err(refusal) = enter_at(file, d, slot, number) {
        return no_part(refusal.number());
    }
    words_from(slot + 3, d.lind - 3)
}

// Where the first section with an identifier stands, of an entry by its numbers.
pub(crate) fn named_part(
    order: ByteOrder,
    file: &[u8],
    entered: Entered,
    identifier: i32,
) -> PartPlace
    requires { Readable order file.now (given entered) }
    ensures { Answers (section_in file.now (given entered) identifier) result }
{
    let stored = EntryWords {
        order,
        file,
        start: entered.start,
        nsec: entered.nsec,
    };
    let Some(found) = stored.named(identifier) else {
        return no_part(Refusal::NoSection.number());
    };
    let piece = stored.section(found);
    words_from(entry_position(entered.start, piece.address), piece.words)
}

// Where the first section with an identifier stands. It is laid out in each of its callers, since as a call of its own it
// would hand the slice on.
#[inline(always)]
pub fn section_part(
    file: &[u8],
    d: DescriptorNumbers,
    totals: &[u64],
    number: EntryNumber,
    identifier: i32,
) -> PartPlace
    requires { AdmittedIn file.now d (addresses_of file.now d.nex) × TotalsOf d totals.now }
    ensures { Answers (section_part file.now d (addresses_of file.now d.nex) number identifier) result }
{
    match enter(file, d, totals, number) {
        Ok(entered) => named_part(d.order, file, entered, identifier),
        Err(refusal) => no_part(refusal.number()),
    }
}

// Where the data stands.
pub fn data_part(
    file: &[u8],
    d: DescriptorNumbers,
    totals: &[u64],
    number: EntryNumber,
) -> PartPlace
    requires { AdmittedIn file.now d (addresses_of file.now d.nex) × TotalsOf d totals.now }
    ensures { Answers (data_part file.now d (addresses_of file.now d.nex) number) result }
{
    let entered = match enter(file, d, totals, number) {
        Ok(entered) => entered,
        Err(refusal) => return no_part(refusal.number()),
    };
    let piece = entered.array;
    if piece.words == 0 {
        return PartPlace::default();
    }
    words_from(entry_position(entered.start, piece.address), piece.words)
}

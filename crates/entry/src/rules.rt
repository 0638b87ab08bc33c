// The rules of an entry, 13 to 19, tested in the order of their tables.
ghost use Rattle.std.specs.Prelude.{◌≡◌, ◌+◌, ◌*◌, ◌^◌, ◌≤◌, ◌<◌, length};
ghost use Rattle.outcome.specs.Refusal.{Refuses};
ghost use Rattle.layout.specs.EntryWords.{head_words};
ghost use Rattle.descriptor.specs.FirstRecord.{free_of};
ghost use Rattle.descriptor.specs.Bounds.{Settled, Free};
ghost use Rattle.entry.specs.Opening.{start_refusal, head_refusal, content_refusal};
ghost use Rattle.pieces.specs.EntryDescriptor.{head_at};

use descriptor::DescriptorNumbers;
use descriptor::inner::free_position;
use geometry::{EntryNumber, Place, byte_offset, entry_position, position_within};
use layout::entry_descriptor;
use layout::entry_descriptor::descriptor_words;
use outcome::Refusal;
use pieces::{EntryWords, Head, Piece, data_within};

// Rule 13, where an entry starts.
pub(crate) fn start_refusal(d: DescriptorNumbers, place: Place) -> Result<(), Refusal>
    requires { Settled d × Free d × (free_of d ≤ 2 ^ 28) }
    ensures { Refuses (start_refusal d place) result }
{
    if !words::at_least::<i64>(place.record.0, 2) {
        return Err(Refusal::EntryPlace);
    }
    if !words::within::<i32>(place.word.0, 1, d.reclen) {
        return Err(Refusal::EntryPlace);
    }
    let free = free_position(d);
    if !position_within(
        d.reclen,
        place.record,
        place.word,
        free - entry_descriptor::HEAD_WORDS,
    ) {
        return Err(Refusal::EntryPlace);
    }
    Ok(())
}

// Rules 14 to 16, the descriptor of the entry at a position, of which the numbers are read: the first that is broken.
pub(crate) fn head_refusal(
    file: &[u8],
    d: DescriptorNumbers,
    start: u64,
    head: Head,
    number: EntryNumber,
) -> Result<(), Refusal>
    requires { (d.reclen ≤ 4096) × Free d × (start + head_words ≤ free_of d) × (4 * free_of d ≤ length file.now) × (head ≡ head_at file.now start) }
    ensures { Refuses (head_refusal file.now d start number) result }
{
    let at = byte_offset(entry_position(start, entry_descriptor::CODE));
    if !words::code_at(file, at, entry_descriptor::ENTRY_CODE) {
        return Err(Refusal::EntryCode);
    }
    if !words::within::<i32>(head.nsec, 0, entry_descriptor::SECTIONS_MAX) {
        return Err(Refusal::EntryLength);
    }
    if !words::at_least::<i64>(head.nword, descriptor_words(head.nsec)) {
        return Err(Refusal::EntryLength);
    }
    if free_position(d) < start + head.nword {
        return Err(Refusal::EntryLength);
    }
    let xnum = head.xnum;
    if xnum.0 != number.0 {
        return Err(Refusal::EntryXnum);
    }
    Ok(())
}

// Rules 17 to 19, what an entry of `nword` words holds: the first that is broken.
pub(crate) fn content_refusal(entry: &EntryWords, nword: u64, array: Piece) -> Result<(), Refusal>
    requires { nword < 2 ^ 32 }
    ensures { Refuses (content_refusal entry.now.file.now entry.now.start entry.now.nsec nword array) result }
{
    if !words::at_least::<i64>(array.words, 0) {
        return Err(Refusal::DataPlace);
    }
    if !data_within(entry.nsec, nword, array) {
        return Err(Refusal::DataPlace);
    }
    let Some(spread) = entry.spread(nword) else {
        return Err(Refusal::SectionPlace);
    };
    if !entry.sections_apart(spread.ordered) {
        return Err(Refusal::SharedWord);
    }
    if !entry.data_apart(array, spread.end) {
        return Err(Refusal::SharedWord);
    }
    Ok(())
}

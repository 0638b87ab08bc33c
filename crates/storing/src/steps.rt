// The slot of a new entry, and the first steps of storing an accepted append, one after the other: the entry's
// descriptor, its content, and its index.
// The content may come from other slices: only its step reads them.
ghost use Rattle.std.specs.Prelude.{◌≡◌, ◌+◌, ◌*◌, ◌^◌, ◌≤◌, ◌<◌, length};
ghost use Rattle.outcome.specs.Outcome.{Answers, Leaves};
ghost use Rattle.image.specs.Writes.{writes};
ghost use Rattle.descriptor.specs.FirstRecord.{addresses_of};
ghost use Rattle.descriptor.specs.Bounds.{AdmittedIn, TotalsOf};
ghost use Rattle.pieces.specs.EntryDescriptor.{word_offset};
ghost use Rattle.entry.specs.Opening.{slot_position_of};
ghost use Rattle.placing.specs.Placing.{full, entry_start, numbers_after, addresses_after};
ghost use Rattle.placing.specs.Bounds.{Extensible};
ghost use Rattle.storing.specs.Bounds.{Describing};
ghost use Rattle.storing.specs.Writing.{slot_writes};
ghost use Rattle.storing.specs.AsMade.{descriptor_writes, pieces_writes};

use super::head::put_head;
use super::tables::put_tables;
use descriptor::DescriptorNumbers;
use descriptor::inner::aex_in;
use geometry::{
    EntryAddress, ExtensionNumber, Place, WordNumber, byte_offset, entries_before, entry_position,
    position, total_before,
};
use pieces::Head;
use placing::new_area;
use words::ByteOrder;

// Writes the descriptor of the entry: its head and its tables.
pub fn put_descriptor(
    order: ByteOrder,
    file: &mut [u8],
    start: u64,
    head: Head,
    ids: &[i32],
    lengths: &[i64],
)
    requires { Describing (length file.old) start head ids.now lengths.now }
    ensures { Leaves (writes file.old (descriptor_writes order start head ids.now lengths.now)) file.new }
{
    put_head(order, file, start, head);
    put_tables(order, file, start, ids, lengths);
}

// Writes the sections and the data of the entry, from a word of it on. It takes these two slices and no entry, because they may come from
// elsewhere.
pub fn put_content(file: &mut [u8], start: u64, first: EntryAddress, sections: &[u8], values: &[u8])
    requires { (1 ≤ first.0) × (start + first.0 < 2 ^ 32) × (word_offset start first + length sections.now + length values.now ≤ length file.old) }
    ensures { Leaves (writes file.old (pieces_writes start first sections.now values.now)) file.new }
{
    let at = byte_offset(entry_position(start, first));
    image::put(file, at, sections);
    image::put(file, at + sections.len(), values);
}

// The position of the slot of a new entry: the first of a new index area, or the next one of the last area in
// use, behind the slots of those that the totals do not count before it.
pub(crate) fn new_slot(file: &[u8], d: DescriptorNumbers, extends: bool, totals: &[u64]) -> u64
    requires { AdmittedIn file.now d (addresses_of file.now d.nex) × TotalsOf d totals.now × (extends ≡ full d) × Extensible d }
    ensures { Answers (slot_position_of (numbers_after d (entry_start d)) (addresses_after d (addresses_of file.now d.nex)) d.xnext) result }
{
    if extends {
        return position(d.reclen, new_area(d), WordNumber(1));
    }
    let extension = ExtensionNumber(d.nex);
    let first = aex_in(d.order, file, extension);
    let before = entries_before(d.xnext) - total_before(totals, extension);
    position(d.reclen, first, WordNumber(1)) + before * d.lind
}

// Writes the index of the entry: where it starts, and the application's words.
pub(crate) fn put_slot(order: ByteOrder, file: &mut [u8], slot: u64, place: Place, index: &[u8])
    requires { (slot < 2 ^ 32) × (place.word.0 < 2 ^ 32) × (4 * (slot + 3) + length index.now ≤ length file.old) }
    ensures { Leaves (writes file.old (slot_writes order slot place index.now)) file.new }
{
    words::write(order, file, byte_offset(slot), place.record.0);
    words::write(order, file, byte_offset(slot + 2), place.word.0 as u32);
    image::put(file, byte_offset(slot + 3), index);
}

// The geometry of a container, in numbers alone: units, positions, growth, index areas and slots.
//
// Records, words of a record, entries, extensions and words of an entry are counted from 1, and each
// is a type of its own. A position counts words from 0 at the file's start, an offset counts bytes.
// The functions of `units` are the only ones that turn one into another.
#![tactic(auto)]

mod area;
mod growth;
mod totals;
mod units;
mod walk;

pub use area::{Slot, area_records, records_for};
pub use growth::Growth;
pub use totals::{total_before, totals_of};
pub use units::{
    EntryAddress, EntryNumber, ExtensionNumber, Place, RecordNumber, WordNumber, byte_offset,
    entries_before, entry_address, entry_position, first_record_offset, place_at, position,
    position_within, table_index,
};
pub use walk::{Walk, capacity, over};

// Units counted from 1, and the named functions that turn them into positions and back.
ghost use Rattle.std.specs.Prelude.{◌+◌, ◌^◌, ◌≤◌, ◌<◌, leb};
ghost use Rattle.outcome.specs.Outcome.{Answers};
ghost use Rattle.geometry.specs.Units.{position_of, place_of, entry_position_of, entry_address_of, offset_of, first_record_offset_of, entries_before, index_of};

// A record of the file.
#[repr(C)]
#[derive(Clone, Copy, Default, PartialEq, Eq)]
pub struct RecordNumber(pub u64);

// A word of a record.
#[repr(C)]
#[derive(Clone, Copy, Default, PartialEq, Eq)]
pub struct WordNumber(pub u64);

// An entry of the file.
#[repr(C)]
#[derive(Clone, Copy, Default, PartialEq, Eq)]
pub struct EntryNumber(pub u64);

// An extension of the file.
#[derive(Clone, Copy, Default, PartialEq, Eq)]
pub struct ExtensionNumber(pub u64);

// A word of an entry.
#[derive(Clone, Copy, Default)]
pub struct EntryAddress(pub u64);

// A word of the file, by its record and its word there.
#[derive(Clone, Copy, Default)]
pub struct Place {
    pub record: RecordNumber,
    pub word: WordNumber,
}

// The position of a record's word.
#[tactic(auto, unfolding(crate::specs::Units::position_of))]
pub fn position(reclen: u64, record: RecordNumber, word: WordNumber) -> u64
    requires { (1 ≤ «record».0) × («record».0 ≤ 2 ^ 32) × (1 ≤ word.0) × (word.0 ≤ 2 ^ 32) × (reclen ≤ 4096) }
    ensures { Answers (position_of reclen «record» word) result }
{
    (record.0 - 1) * reclen + (word.0 - 1)
}

// Whether the position of a record's word is at most `limit`, however large the record's number is.
#[tactic(auto, using(crate::proofs::Positions::past_limit))]
pub fn position_within(reclen: u64, record: RecordNumber, word: WordNumber, limit: u64) -> bool
    requires { (1 ≤ reclen) × (reclen ≤ 4096) × (1 ≤ «record».0) × (1 ≤ word.0) × (word.0 ≤ 2 ^ 32) × (limit < 2 ^ 32) }
    ensures { Answers (leb (position_of reclen «record» word) limit) result }
{
    if limit < record.0 - 1 {
        return false;
    }
    position(reclen, record, word) <= limit
}

// The record and word at a position.
#[tactic(auto, unfolding(crate::specs::Units::place_of))]
pub fn place_at(reclen: u64, position: u64) -> Place
    requires { (1 ≤ reclen) × (position < 2 ^ 63) }
    ensures { Answers (place_of reclen position) result }
{
    Place {
        record: RecordNumber(position / reclen + 1),
        word: WordNumber(position % reclen + 1),
    }
}

// The position of a word of the entry that starts at position `start`.
pub fn entry_position(start: u64, address: EntryAddress) -> u64
    requires { (1 ≤ address.0) × (start + address.0 < 2 ^ 64) }
    ensures { Answers (entry_position_of start address) result }
{
    start + (address.0 - 1)
}

// The address of a position in the entry that starts at position `start`.
pub fn entry_address(start: u64, position: u64) -> EntryAddress
    requires { (start ≤ position) × (position < 2 ^ 63) }
    ensures { Answers (entry_address_of start position) result }
{
    EntryAddress(position - start + 1)
}

// The offset in bytes of a position, and as well the length in bytes of a count of words.
pub fn byte_offset(position: u64) -> usize
    requires { position < 2 ^ 61 }
    ensures { Answers (offset_of position) result }
{
    (4 * position) as usize
}

// The offset in bytes of a word of the first record.
pub fn first_record_offset(word: WordNumber) -> usize
    requires { (1 ≤ word.0) × (word.0 ≤ 4096) }
    ensures { Answers (first_record_offset_of word) result }
{
    byte_offset(word.0 - 1)
}

// How many entries come before an entry.
pub fn entries_before(entry: EntryNumber) -> u64
    requires { 1 ≤ entry.0 }
    ensures { Answers (entries_before entry) result }
{
    entry.0 - 1
}

// The index of an extension in a table of addresses, counted from 0.
pub fn table_index(extension: ExtensionNumber) -> usize
    requires { 1 ≤ extension.0 }
    ensures { Answers (index_of extension) result }
{
    (extension.0 - 1) as usize
}

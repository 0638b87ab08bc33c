// The words of an entry descriptor, each by its address in the entry, and the code that the first
// holds.
ghost use Rattle.std.specs.Prelude.{◌≤◌};
ghost use Rattle.outcome.specs.Outcome.{Answers};
ghost use Rattle.layout.specs.EntryWords.{identifier_word, length_word, address_word, first_content, descriptor_words, sections_max};

use geometry::EntryAddress;

pub const ENTRY_CODE: [u8; 4] = [0x32, 0x20, 0x20, 0x20];

pub const CODE: EntryAddress = EntryAddress(1);

pub const VERSION: EntryAddress = EntryAddress(2);

pub const NSEC: EntryAddress = EntryAddress(3);

pub const NWORD: EntryAddress = EntryAddress(4);

pub const ADATA: EntryAddress = EntryAddress(6);

pub const LDATA: EntryAddress = EntryAddress(8);

pub const XNUM: EntryAddress = EntryAddress(10);

// How many words stand before the tables.
pub const HEAD_WORDS: u64 = 11;

// How many sections an entry has at most.
pub const SECTIONS_MAX: u64 = 64;

// How many places the tables of an opened entry have.
pub const PLACES: usize = SECTIONS_MAX as usize;

// The word where the identifier of section `i` stands, counted from 0.
pub fn identifier_word(i: u64) -> EntryAddress
    requires { i ≤ sections_max }
    ensures { Answers (identifier_word i) result }
{
    EntryAddress(12 + i)
}

// The word where the length of section `i` of `nsec` starts.
pub fn length_word(nsec: u64, i: u64) -> EntryAddress
    requires { (nsec ≤ sections_max) × (i ≤ sections_max) }
    ensures { Answers (length_word nsec i) result }
{
    EntryAddress(12 + nsec + 2 * i)
}

// The word where the address of section `i` of `nsec` starts.
pub fn address_word(nsec: u64, i: u64) -> EntryAddress
    requires { (nsec ≤ sections_max) × (i ≤ sections_max) }
    ensures { Answers (address_word nsec i) result }
{
    EntryAddress(12 + 3 * nsec + 2 * i)
}

// The first word that content may have.
pub fn first_content(nsec: u64) -> EntryAddress
    requires { nsec ≤ sections_max }
    ensures { Answers (first_content nsec) result }
{
    EntryAddress(12 + 5 * nsec)
}

// How many words a descriptor with `nsec` sections has.
pub fn descriptor_words(nsec: u64) -> u64
    requires { nsec ≤ sections_max }
    ensures { Answers (descriptor_words nsec) result }
{
    HEAD_WORDS + 5 * nsec
}

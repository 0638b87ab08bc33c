// The numbers of a first record, and those of a new file.
ghost use Rattle.outcome.specs.Outcome.{Answers};
ghost use Rattle.descriptor.specs.FirstRecord.{created_of};

use geometry::{EntryNumber, RecordNumber, WordNumber};
use words::ByteOrder;

// What a caller chooses for a new file. They are integers and no enums, since C may hand in any, and the rules test them.
#[derive(Clone, Copy)]
pub struct Settings {
    pub order: i32,
    pub reclen: i32,
    pub kind: i32,
    pub vind: i32,
    pub lind: i32,
    pub flags: i32,
    pub lex1: i32,
    pub gex: i32,
}

// The order that the code of a first record says, and its fields but the addresses: as stored while they
// are tested, and within their limits once they are validated. They are numbers and no enums, since a file, or a record that C
// hands in, may hold any.
#[repr(C)]
#[derive(Clone, Copy, Default, PartialEq, Eq)]
pub struct DescriptorNumbers {
    pub order: ByteOrder,
    pub reclen: u64,
    pub kind: u64,
    pub vind: u64,
    pub lind: u64,
    pub flags: u64,
    pub xnext: EntryNumber,
    pub nextrec: RecordNumber,
    pub nextword: WordNumber,
    pub lex1: u64,
    pub nex: u64,
    pub gex: u64,
}

impl DescriptorNumbers {
    pub const RECLEN_MIN: u64 = 16;

    pub const RECLEN_MAX: u64 = 4096;

    pub const LIND_MIN: u64 = 3;

    pub const LIND_MAX: u64 = 256;

    pub const BYTES_MAX: u64 = 1073741824;

    // The numbers of a new file with these settings.
    #[tactic(auto, unfolding(crate::specs::FirstRecord::created_of))]
    pub fn new(settings: Settings) -> DescriptorNumbers
        ensures { Answers (created_of settings) result }
    {
        DescriptorNumbers {
            order: ByteOrder(settings.order.cast_unsigned() as u64),
            reclen: settings.reclen.cast_unsigned() as u64,
            kind: settings.kind.cast_unsigned() as u64,
            vind: settings.vind.cast_unsigned() as u64,
            lind: settings.lind.cast_unsigned() as u64,
            flags: settings.flags.cast_unsigned() as u64,
            xnext: EntryNumber(1),
            nextrec: RecordNumber(2),
            nextword: WordNumber(1),
            lex1: settings.lex1.cast_unsigned() as u64,
            nex: 0,
            gex: settings.gex.cast_unsigned() as u64,
        }
    }
}

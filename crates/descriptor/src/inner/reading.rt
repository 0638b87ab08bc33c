// The numbers of a first record, read from a file.
ghost use Rattle.std.specs.Prelude.{◌≡◌, ◌+◌, ◌-◌, ◌*◌, ◌≤◌, length};
ghost use mir.Val.{bytes};
ghost use Rattle.outcome.specs.Outcome.{Answers};
ghost use Rattle.layout.specs.FileCode.{byte_order_of};
ghost use Rattle.descriptor.specs.FirstRecord.{field, numbers_of};

use crate::numbers::DescriptorNumbers;
use geometry::{EntryNumber, RecordNumber, WordNumber, first_record_offset};
use layout::file_code::byte_order_of;
use layout::first_record;
use words::{ByteOrder, Integer};

// The integer at a word of the first record, and the words behind it that it fills.
#[tactic(auto, unfolding(crate::specs::FirstRecord::field))]
pub(crate) fn field_at<T: Integer>(order: ByteOrder, file: &[u8], word: WordNumber) -> T
    requires { (order ≡ byte_order_of file.now) × (1 ≤ word.0) × (word.0 ≤ 4096) × (4 * (word.0 - 1) + bytes T.width ≤ length file.now) }
    ensures { Answers (T.value (field T.width file.now word)) result }
{
    words::read(order, file, first_record_offset(word))
}

// The numbers as stored in a file, read in the order that its code says.
#[tactic(auto, unfolding(crate::specs::FirstRecord::numbers_of))]
fn numbers_in(order: ByteOrder, file: &[u8]) -> DescriptorNumbers
    requires { (order ≡ byte_order_of file.now) × (64 ≤ length file.now) }
    ensures { Answers (numbers_of file.now) result }
{
    DescriptorNumbers {
        order,
        reclen: field_at::<u32>(order, file, first_record::RECLEN) as u64,
        kind: field_at::<u32>(order, file, first_record::KIND) as u64,
        vind: field_at::<u32>(order, file, first_record::VIND) as u64,
        lind: field_at::<u32>(order, file, first_record::LIND) as u64,
        flags: field_at::<u32>(order, file, first_record::FLAGS) as u64,
        xnext: EntryNumber(field_at(order, file, first_record::XNEXT)),
        nextrec: RecordNumber(field_at(order, file, first_record::NEXTREC)),
        nextword: WordNumber(field_at::<u32>(order, file, first_record::NEXTWORD) as u64),
        lex1: field_at::<u32>(order, file, first_record::LEX1) as u64,
        nex: field_at::<u32>(order, file, first_record::NEX) as u64,
        gex: field_at::<u32>(order, file, first_record::GEX) as u64,
    }
}

// The numbers as stored in a file. The order is asked once, so that those of a little-endian file are read as they stand.
pub fn numbers_of(file: &[u8]) -> DescriptorNumbers
    requires { 64 ≤ length file.now }
    ensures { Answers (numbers_of file.now) result }
{
    let order = byte_order_of(file);
    if order.0 == 0 {
        return numbers_in(ByteOrder(0), file);
    }
    numbers_in(order, file)
}

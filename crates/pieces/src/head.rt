// The head of an entry: the numbers of its descriptor, which stand before its tables.
ghost use Rattle.std.specs.Prelude.{◌≡◌, ◌+◌, ◌*◌, ◌≤◌, length};
ghost use Rattle.outcome.specs.Outcome.{Answers};
ghost use Rattle.layout.specs.FileCode.{byte_order_of};
ghost use Rattle.layout.specs.EntryWords.{head_words};
ghost use Rattle.pieces.specs.EntryDescriptor.{head_at};

use super::contents::word_at;
use geometry::{EntryAddress, EntryNumber};
use layout::entry_descriptor;
use words::ByteOrder;

// The numbers in the head of an entry.
#[derive(Clone, Copy)]
pub struct Head {
    pub version: i32,
    pub nsec: u64,
    pub nword: u64,
    pub adata: EntryAddress,
    pub ldata: u64,
    pub xnum: EntryNumber,
}

// The head that stands at a position, read in the order that the file's code says.
#[tactic(auto, unfolding(crate::specs::EntryDescriptor::word4))]
fn head_in(order: ByteOrder, file: &[u8], start: u64) -> Head
    requires { (order ≡ byte_order_of file.now) × (4 * (start + head_words) ≤ length file.now) }
    ensures { Answers (head_at file.now start) result }
{
    Head {
        version: word_at(order, file, start, entry_descriptor::VERSION),
        nsec: word_at::<u32>(order, file, start, entry_descriptor::NSEC) as u64,
        nword: word_at(order, file, start, entry_descriptor::NWORD),
        adata: EntryAddress(word_at(order, file, start, entry_descriptor::ADATA)),
        ldata: word_at(order, file, start, entry_descriptor::LDATA),
        xnum: EntryNumber(word_at(order, file, start, entry_descriptor::XNUM)),
    }
}

// The head that stands at a position. The order is asked once, so that the numbers of a little-endian file are read as they
// stand.
pub fn head_at(order: ByteOrder, file: &[u8], start: u64) -> Head
    requires { (order ≡ byte_order_of file.now) × (4 * (start + head_words) ≤ length file.now) }
    ensures { Answers (head_at file.now start) result }
{
    if order.0 == 0 {
        return head_in(ByteOrder(0), file, start);
    }
    head_in(order, file, start)
}

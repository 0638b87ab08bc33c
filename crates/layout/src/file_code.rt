// The code that a file begins with, and the order of its integers' bytes that the code says.
ghost use Rattle.std.specs.Prelude.{◌≤◌, length};
ghost use Rattle.outcome.specs.Outcome.{Answers};
ghost use Rattle.layout.specs.FileCode.{file_code, byte_order_of};

use super::first_record;
use geometry::first_record_offset;
use words::ByteOrder;

// The code of a file in the little order.
const LITTLE: [u8; 4] = [0x32, 0x41, 0x20, 0x20];

// The code of a file in the big order.
const BIG: [u8; 4] = [0x32, 0x42, 0x20, 0x20];

// The code of an order.
#[tactic(auto, unfolding(crate::specs::FileCode::file_code))]
pub fn file_code(order: ByteOrder) -> [u8; 4]
    ensures { Answers (file_code order) result }
{
    if order.0 == 0 { LITTLE } else { BIG }
}

// The order that a file's code says, or 2 where it is none of the two codes. It is a number and no Option, since the numbers of a
// file keep what the code says until rule 2 tests it.
#[tactic(auto, unfolding(crate::specs::FileCode::order_said, crate::specs::FileCode::file_code_of))]
pub fn byte_order_of(file: &[u8]) -> ByteOrder
    requires { 4 ≤ length file.now }
    ensures { Answers (byte_order_of file.now) result }
{
    let at = first_record_offset(first_record::CODE);
    if words::code_at(file, at, LITTLE) {
        return ByteOrder(0);
    }
    if words::code_at(file, at, BIG) {
        return ByteOrder(1);
    }
    ByteOrder(2)
}

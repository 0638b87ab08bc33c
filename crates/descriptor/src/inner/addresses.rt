// The addresses of a file's index areas.
ghost use Rattle.std.specs.Prelude.{◌≡◌, ◌+◌, ◌*◌, ◌≤◌, length};
ghost use Rattle.outcome.specs.Outcome.{Answers};
ghost use Rattle.layout.specs.FileCode.{byte_order_of};
ghost use Rattle.descriptor.specs.FirstRecord.{addresses_of};

use super::areas::aex_in;
use geometry::{ExtensionNumber, RecordNumber};
use words::ByteOrder;

// The addresses of the first `nex` extensions, in 16 places, the others zero.
#[tactic(auto, unfolding(crate::specs::FirstRecord::addresses_of))]
pub fn addresses_of(order: ByteOrder, file: &[u8], nex: u64) -> [RecordNumber; 16]
    requires { (order ≡ byte_order_of file.now) × (nex ≤ 16) × (4 * (14 + 2 * nex) ≤ length file.now) }
    ensures { Answers (addresses_of file.now nex) result }
{
    let mut table = [RecordNumber(0); 16];
    for filled in 0..nex {
        table[filled as usize] = aex_in(order, file, ExtensionNumber(filled + 1));
    }
    table
}

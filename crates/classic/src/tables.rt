// The addresses of a file's index areas as plain numbers.
ghost use Rattle.std.specs.Prelude.{◌≡◌, cond, ◌+◌, ◌*◌, ◌≤◌, length, leb};
ghost use Rattle.outcome.specs.Outcome.{Answers};
ghost use Rattle.geometry.specs.Units.{index_of, record_numbers};
ghost use Rattle.layout.specs.FileCode.{byte_order_of};
ghost use Rattle.descriptor.specs.FirstRecord.{aex_at, addresses_of};

use descriptor::inner::aex_in;
use geometry::ExtensionNumber;
use words::ByteOrder;

// The first record of an extension's index area, 0 where the extension is not in use.
fn aex_number(order: ByteOrder, file: &[u8], nex: u64, extension: ExtensionNumber) -> u64
    requires { (order ≡ byte_order_of file.now) × (nex ≤ 16) × (4 * (14 + 2 * nex) ≤ length file.now) × (1 ≤ extension.0) }
    ensures { Answers (cond (leb extension.0 nex) (aex_at file.now (index_of extension)).0 0) result }
{
    if nex < extension.0 {
        return 0;
    }
    aex_in(order, file, extension).0
}

// Those of all 16 extensions. Each place is named, so that the compiler stores it where it stays; a table that a loop fills
// is copied once more.
pub(crate) fn aex_numbers(order: ByteOrder, file: &[u8], nex: u64) -> [u64; 16]
    requires { (order ≡ byte_order_of file.now) × (nex ≤ 16) × (4 * (14 + 2 * nex) ≤ length file.now) }
    ensures { Answers (record_numbers (addresses_of file.now nex)) result }
{
    [
        aex_number(order, file, nex, ExtensionNumber(1)),
        aex_number(order, file, nex, ExtensionNumber(2)),
        aex_number(order, file, nex, ExtensionNumber(3)),
        aex_number(order, file, nex, ExtensionNumber(4)),
        aex_number(order, file, nex, ExtensionNumber(5)),
        aex_number(order, file, nex, ExtensionNumber(6)),
        aex_number(order, file, nex, ExtensionNumber(7)),
        aex_number(order, file, nex, ExtensionNumber(8)),
        aex_number(order, file, nex, ExtensionNumber(9)),
        aex_number(order, file, nex, ExtensionNumber(10)),
        aex_number(order, file, nex, ExtensionNumber(11)),
        aex_number(order, file, nex, ExtensionNumber(12)),
        aex_number(order, file, nex, ExtensionNumber(13)),
        aex_number(order, file, nex, ExtensionNumber(14)),
        aex_number(order, file, nex, ExtensionNumber(15)),
        aex_number(order, file, nex, ExtensionNumber(16)),
    ]
}

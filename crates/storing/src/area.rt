// The rest of a new index area, once its first slot is filled: zeros around the slot, nex, and the area's address.
ghost use Rattle.std.specs.Prelude.{◌≡◌, [], ◌∷◌, ◌+◌, ◌*◌, ◌^◌, ◌≤◌, ◌<◌, length};
ghost use Rattle.outcome.specs.Outcome.{Leaves};
ghost use Rattle.image.specs.Writes.{writes};
ghost use Rattle.descriptor.specs.FirstRecord.{free_of};
ghost use Rattle.descriptor.specs.Bounds.{Settled, Free};
ghost use Rattle.placing.specs.Placing.{full, new_area, entry_start};
ghost use Rattle.placing.specs.Bounds.{Extensible};
ghost use Rattle.storing.specs.AsMade.{clear, clear_around, extension_writes, rest_writes};

use descriptor::DescriptorNumbers;
use descriptor::inner::free_position;
use fields::put_field;
use geometry::{ExtensionNumber, RecordNumber, WordNumber, byte_offset, position};
use layout::first_record;
use layout::first_record::aex_word;
use placing::new_area;

// Makes the words from one position to another zero.
fn clear_words(file: &mut [u8], from: u64, to: u64)
    requires { (from ≤ to) × (to < 2 ^ 30) × (4 * to ≤ length file.old) }
    ensures { Leaves (writes file.old (clear from to ∷ [])) file.new }
{
    image::zero(file, byte_offset(from), byte_offset(to - from))
}

// Makes the words from one position to another zero, but for those from `slot` to `slot_end` among them.
fn clear_around(file: &mut [u8], from: u64, slot: u64, slot_end: u64, to: u64)
    requires { (from ≤ slot) × (slot ≤ slot_end) × (slot_end ≤ to) × (to < 2 ^ 30) × (4 * to ≤ length file.old) }
    ensures { Leaves (writes file.old (clear_around from slot slot_end to)) file.new }
{
    clear_words(file, from, slot);
    clear_words(file, slot_end, to);
}

// Writes nex and the address of a new area.
fn put_extension(file: &mut [u8], d: DescriptorNumbers, area: RecordNumber)
    requires { (area ≡ new_area d) × (d.nex < 16) × (64 + 8 * d.nex ≤ length file.old) }
    ensures { Leaves (writes file.old (extension_writes d)) file.new }
{
    put_field(d.order, file, first_record::NEX, (d.nex + 1) as u32);
    let word = aex_word(ExtensionNumber(d.nex + 1));
    put_field(d.order, file, word, area.0);
}

// Makes the rest of the new index area, where one is needed for the entry at `start`.
pub fn put_rest(file: &mut [u8], d: DescriptorNumbers, extends: bool, start: u64)
    requires { Settled d × Free d × (free_of d ≤ 2 ^ 28) × (extends ≡ full d) × Extensible d × (start ≡ entry_start d)
        × (start < 2 ^ 30) × (4 * start ≤ length file.old) × (4 * d.reclen ≤ length file.old) }
    ensures { Leaves (writes file.old (rest_writes d)) file.new }
{
    if extends {
        let area = new_area(d);
        let slot = position(d.reclen, area, WordNumber(1));
        clear_around(file, free_position(d), slot, slot + d.lind, start);
        put_extension(file, d, area);
    }
}

// Storing an accepted append at its place.
ghost use Rattle.outcome.specs.Outcome.{Leaves};
ghost use Rattle.image.specs.Writes.{writes};
ghost use Rattle.descriptor.specs.FirstRecord.{addresses_of};
ghost use Rattle.descriptor.specs.Bounds.{TotalsOf};
ghost use Rattle.storing.specs.Handed.{handed_of};
ghost use Rattle.storing.specs.AsMade.{store_writes};
ghost use Rattle.storing.specs.Bounds.{Storing};

use super::area::put_rest;
use super::new_entry::NewEntry;
use super::steps::{new_slot, put_content, put_descriptor, put_slot};
use descriptor::DescriptorNumbers;
use fields::put_counts;
use geometry::place_at;
use layout::entry_descriptor::first_content;
use pieces::Head;
use placing::{Placement, numbers_after};

// Writes an entry with this head at its place, and all that comes with it; no word of the file twice. The
// totals are those of the file before it.
pub fn store(
    file: &mut [u8],
    d: DescriptorNumbers,
    placed: Placement,
    totals: &[u64],
    head: Head,
    entry: &NewEntry,
)
    requires { Storing file.old d placed head (handed_of entry.now) × TotalsOf d totals.now }
    ensures { Leaves (writes file.old (store_writes d (addresses_of file.old d.nex) placed head (handed_of entry.now))) file.new }
{
    let slot = new_slot(file, d, placed.extends, totals);
    put_descriptor(d.order, file, placed.start, head, entry.ids, entry.lengths);
    put_content(
        file,
        placed.start,
        first_content(head.nsec),
        entry.sections,
        entry.values,
    );
    put_slot(
        d.order,
        file,
        slot,
        place_at(d.reclen, placed.start),
        entry.index,
    );
    put_rest(file, d, placed.extends, placed.start);
    put_counts(
        file,
        numbers_after(d, placed.extends, placed.start + head.nword),
    );
}

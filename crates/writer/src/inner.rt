// Appending to a file whose numbers are at hand, as after validating it.
ghost use Rattle.descriptor.specs.FirstRecord.{addresses_of};
ghost use Rattle.descriptor.specs.Bounds.{AdmittedIn, TotalsOf};
ghost use Rattle.storing.specs.Handed.{handed_of};
ghost use Rattle.writer.specs.Answers.{AppendsFrom};

use super::rules::handed_refusal;
use descriptor::DescriptorNumbers;
use geometry::EntryNumber;
use outcome::Refusal;
use placing::place;
use storing::{NewEntry, head_of, store};

// Appends an entry to a file of admitted numbers and these totals, or refuses by 21 to 24 and changes
// nothing.
pub fn append_from(
    d: DescriptorNumbers,
    totals: &[u64],
    file: &mut [u8],
    entry: &NewEntry,
) -> Result<EntryNumber, Refusal>
    requires { AdmittedIn file.old d (addresses_of file.old d.nex) × TotalsOf d totals.now }
    ensures { AppendsFrom file.old d (handed_of entry.now) result file.new }
{
    handed_refusal(d, entry)?;
    let head = head_of(
        entry.version,
        entry.ids.len() as u64,
        (entry.sections.len() / 4) as u64,
        (entry.values.len() / 4) as u64,
        d.xnext,
    );
    let placed = place(file.len() as u64, d, totals, head.nword)?;
    store(file, d, placed, totals, head, entry);
    Ok(d.xnext)
}

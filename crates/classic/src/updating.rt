// Rewriting a section of an entry, for C.
ghost use Rattle.update.specs.Answers.{update_in, Updates};

use geometry::EntryNumber;
use update::update_section;

// Writes new content to the first section of an entry that has the identifier, and zeros over the rest
// of its space. Answers 0, or the refusal.
pub fn classic_update(file: &mut [u8], entry: u64, identifier: i32, content: &[u8]) -> u32
    ensures { Updates file.old (update_in (record { 0 = entry }) identifier content.now) result file.new }
{
    update_section(file, EntryNumber(entry), identifier, content)
}

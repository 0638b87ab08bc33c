// Creating a file, for C.
ghost use Rattle.writer.specs.Creation.{Creates};
ghost use Rattle.classic.specs.Answers.{settings_from};

use super::answers::ClassicSettings;
use writer::create;

// Writes the first record of a file with no entries. Answers 0, or the refusal.
pub fn classic_create(file: &mut [u8], settings: ClassicSettings) -> u32
    ensures { Creates file.old (settings_from settings) result file.new }
{
    create(file, settings.into())
}

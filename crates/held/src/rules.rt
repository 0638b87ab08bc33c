// Rule 27, that a record is the one that its file has.
ghost use Rattle.outcome.specs.Outcome.{Answers};
ghost use Rattle.held.specs.Rules.{held_refusal};

use super::answers::OpenFile;
use super::opening::open_file_of;
use outcome::Refusal;

// 27 where the file is refused, or a field of the record differs from what validating the file gives;
// else 0. It is the number itself, which each caller puts into its own answer.
pub fn held_refusal(file: &[u8], held: OpenFile) -> u32
    ensures { Answers (held_refusal file.now held) result }
{
    let opened = open_file_of(file);
    if opened.refusal != 0 || held != opened.file {
        return Refusal::OpenFile.number();
    }
    0
}

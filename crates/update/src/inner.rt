// Rewriting a section at the place where it stands.
ghost use Rattle.std.specs.Prelude.{◌+◌, ◌%◌, ◌^◌, ◌≤◌, ◌<◌, ◌≡◌, length};
ghost use Rattle.outcome.specs.Outcome.{Leaves};
ghost use Rattle.image.specs.Image.{splice};
ghost use Rattle.update.specs.Answers.{padded, UpdatesAt};
ghost use Rattle.update.specs.Bounds.{Writable};

use super::rules::content_refusal;
use handing::PartPlace;

// Writes content to the start of a space, and zeros over the rest of it.
fn rewrite(file: &mut [u8], start: usize, space: usize, content: &[u8])
    requires { (start + space ≤ length file.old) × (length content.now ≤ space) × (space % 4 ≡ 0) × (length content.now % 4 ≡ 0) × (space < 2 ^ 32) }
    ensures { Leaves (splice file.old start (padded content.now space)) file.new }
{
    image::put(file, start, content);
    image::zero(file, start + content.len(), space - content.len());
}

// Rewrites the section at a place: refuses as the place does, then by 28, and then changes no byte. The answer is a number, since
// the refusal of a place is one, and is handed on as it is.
pub fn update_at(file: &mut [u8], place: PartPlace, content: &[u8]) -> u32
    requires { Writable (length file.old) place }
    ensures { UpdatesAt file.old place content.now result file.new }
{
    if place.refusal != 0 {
        return place.refusal;
    }
    let start = place.start;
    let space = place.end - start;
    match content_refusal(content.len(), space) {
        Err(refusal) => refusal.number(),
        Ok(()) => {
            rewrite(file, start, space, content);
            0
        }
    }
}

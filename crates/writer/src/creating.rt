// Creating a file.
ghost use Rattle.std.specs.Prelude.{◌*◌, ◌≤◌, length};
ghost use Rattle.outcome.specs.Outcome.{Leaves};
ghost use Rattle.outcome.specs.Refusal.{Refuses};
ghost use Rattle.descriptor.specs.Bounds.{Narrow};
ghost use Rattle.fields.specs.FieldWrites.{first_written};
ghost use Rattle.writer.specs.Creation.{creation_refusal, Creates};

use descriptor::{DescriptorNumbers, Settings, setting_refusal};
use fields::{put_counts, put_growth, put_settings};
use outcome::Refusal;

// The refusal of a creation with these settings: the first rule of 1 to 8 that is broken, or none.
#[tactic(auto, unfolding(crate::specs::Creation::creation_refusal, descriptor::specs::Rules::setting_refusal))]
fn creation_refusal(bytes: u64, settings: Settings) -> Result<(), Refusal>
    ensures { Refuses (creation_refusal bytes settings) result }
{
    Refusal::LentShort.unless(64 <= bytes)?;
    setting_refusal(bytes, DescriptorNumbers::new(settings))
}

// Writes the first record of a new file.
#[tactic(auto, unfolding(fields::specs::FieldWrites::first_written))]
fn put_first(file: &mut [u8], d: DescriptorNumbers)
    requires { Narrow d × (16 ≤ d.reclen) × (d.reclen ≤ 4096) × (4 * d.reclen ≤ length file.old) }
    ensures { Leaves (first_written file.old d) file.new }
{
    put_settings(file, d);
    put_counts(file, d);
    put_growth(file, d);
}

// Creates a file in the lent bytes: its first record, with no entries. C has no Result, so the answer is the refusal's number, or
// 0.
pub fn create(file: &mut [u8], settings: Settings) -> u32
    ensures { Creates file.old settings result file.new }
{
    match creation_refusal(file.len() as u64, settings) {
        Ok(()) => {
            put_first(file, DescriptorNumbers::new(settings));
            0
        }
        Err(refusal) => refusal.number(),
    }
}

// What follows from the numbers of a first record: mex, and the next free position.
ghost use Rattle.std.specs.Prelude.{◌≤◌};
ghost use Rattle.outcome.specs.Outcome.{Answers};
ghost use Rattle.descriptor.specs.FirstRecord.{mex_of, free_of};
ghost use Rattle.descriptor.specs.Bounds.{Free};

use crate::numbers::DescriptorNumbers;
use geometry::{Growth, position};

// The most extensions that a first record has room for.
#[tactic(auto, unfolding(crate::specs::FirstRecord::mex_of))]
pub fn mex(reclen: u64) -> u64
    requires { 16 ≤ reclen }
    ensures { Answers (mex_of reclen) result }
{
    ((reclen - 14) / 2).min(Growth::EXTENSIONS_MAX)
}

// The next free position.
pub fn free_position(d: DescriptorNumbers) -> u64
    requires { (d.reclen ≤ 4096) × Free d }
    ensures { Answers (free_of d) result }
{
    position(d.reclen, d.nextrec, d.nextword)
}

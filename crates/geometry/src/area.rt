// Index areas: how many records one takes, and where in it an entry has its slot.
ghost use Rattle.std.specs.Prelude.{◌+◌, ◌^◌, ◌≤◌, ◌<◌};
ghost use Rattle.outcome.specs.Outcome.{Answers};
ghost use Rattle.geometry.specs.Area.{records_for, area_records};

use super::units::ExtensionNumber;

// Where an entry's index stands: the extension, the place among its slots counted from 1, and the
// offset in words from the start of its area.
#[derive(Clone, Copy)]
pub struct Slot {
    pub extension: ExtensionNumber,
    pub place: u64,
    pub offset: u64,
}

// How many whole records hold a count of words. The quotient of `div_ceil` is followed by a test of the remainder, which costs a
// walk over sixteen extensions a tenth of its time.
#[tactic(auto, using(crate::proofs::Slots::rounded_up), unfolding(crate::specs::Area::records_for))]
pub fn records_for(words: u64, reclen: u64) -> u64
    requires { (1 ≤ reclen) × (words + reclen < 2 ^ 64) }
    ensures { Answers (records_for words reclen) result }
{
    (words + (reclen - 1)) / reclen
}

// How many records an index area takes.
pub fn area_records(capacity: u64, lind: u64, reclen: u64) -> u64
    requires { (capacity ≤ 16384) × (lind ≤ 256) × (1 ≤ reclen) × (reclen ≤ 4096) }
    ensures { Answers (area_records capacity lind reclen) result }
{
    records_for(capacity * lind, reclen)
}

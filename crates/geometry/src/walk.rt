// How many entries each extension holds, by a walk from the first extension to the next.
//
// A walk counts a capacity in parts, so many to an entry that the parts of the first fifteen
// extensions are whole numbers, and that those of a capacity within the limit fit 64 bits, twice over.
ghost use Rattle.std.specs.Prelude.{◌+◌, ◌-◌, ◌^◌, ◌≤◌, ◌<◌};
ghost use Rattle.outcome.specs.Outcome.{Answers};
ghost use Rattle.geometry.specs.Growth.{capacity_of, over_of, Growing};
ghost use Rattle.geometry.specs.Walk.{grown_of, walk_of, Walking};

use super::growth::Growth;
use super::units::ExtensionNumber;

// An extension that a walk has come to: the capacities of those before it together, and its own, in
// entries and in parts.
#[derive(Clone, Copy)]
pub struct Walk {
    pub extension: ExtensionNumber,
    pub before: u64,
    pub capacity: u64,
    pub parts: u64,
}

impl Walk {
    pub const PARTS_OF_AN_ENTRY: u64 = 100_000_000_000_000;

    // A walk at the first extension.
    pub fn new(growth: Growth) -> Walk
        requires { growth.lex1 ≤ 4096 }
        ensures { Answers (walk_of growth 1) result }
    {
        Walk {
            extension: ExtensionNumber(1),
            before: 0,
            capacity: growth.lex1,
            parts: growth.lex1 * Walk::PARTS_OF_AN_ENTRY,
        }
    }

    // The walk at the next extension. The one it has come to, and those before it, are within the limit.
    pub fn next(self, growth: Growth) -> Walk
        requires { Walking growth self }
        ensures { Answers (walk_of growth (self.extension.0 + 1)) result }
    {
        let parts = grown(growth, self.parts);
        Walk {
            extension: ExtensionNumber(self.extension.0 + 1),
            before: self.before + self.capacity,
            capacity: parts / Walk::PARTS_OF_AN_ENTRY,
            parts,
        }
    }

    // The walk at an extension, by way of the one before it. Those before it are within the limit. A capacity is defined from
    // the one before it, so this asks for that one by a call of itself, which ends at the first of 16.
    pub fn to(growth: Growth, extension: ExtensionNumber) -> Walk
        requires { (1 ≤ extension.0) × (extension.0 ≤ 16) × Growing growth (extension.0 - 1) }
        ensures { Answers (walk_of growth extension.0) result }
    {
        if extension.0 <= 1 {
            return Walk::new(growth);
        }
        Walk::to(growth, ExtensionNumber(extension.0 - 1)).next(growth)
    }
}

// The parts that follow from parts: times gex, divided by 10, the tens and the last digit each for
// itself, so that the product fits.
#[tactic(auto, using(crate::proofs::Parts::by_digits))]
fn grown(growth: Growth, parts: u64) -> u64
    requires { (growth.gex ≤ 20) × (parts < 2 ^ 61) }
    ensures { Answers (grown_of growth parts) result }
{
    parts / 10 * growth.gex + parts % 10 * growth.gex / 10
}

// The capacity of an extension, worked out from the one before it. Those before it are within the limit.
pub fn capacity(growth: Growth, extension: ExtensionNumber) -> u64
    requires { (1 ≤ extension.0) × (extension.0 ≤ 16) × Growing growth (extension.0 - 1) }
    ensures { Answers (capacity_of growth extension.0) result }
{
    Walk::to(growth, extension).capacity
}

// Whether one of the first `count` capacities is over the limit.
pub fn over(growth: Growth, count: u64) -> bool
    requires { (growth.lex1 ≤ 4096) × (growth.gex ≤ 20) × (count ≤ 16) }
    ensures { Answers (over_of growth count) result }
{
    let mut walk = Walk::new(growth);
    for _passed in 0..count {
        if Growth::CAPACITY_MAX < walk.capacity {
            return true;
        }
        walk = walk.next(growth);
    }
    false
}

// How the extensions of a file grow, and the limits on it.
ghost use Rattle.outcome.specs.Outcome.{Answers};
ghost use Rattle.geometry.specs.Growth.{growth_of};

// The capacity of the first extension, and ten times the factor from one to the next.
#[derive(Clone, Copy)]
pub struct Growth {
    pub lex1: u64,
    pub gex: u64,
}

impl Growth {
    pub const LEX1_MIN: u64 = 1;

    pub const LEX1_MAX: u64 = 4096;

    pub const GEX_MIN: u64 = 10;

    pub const GEX_MAX: u64 = 20;

    pub const CAPACITY_MAX: u64 = 16384;

    pub const EXTENSIONS_MAX: u64 = 16;

    pub fn new(lex1: u64, gex: u64) -> Growth
        ensures { Answers (growth_of lex1 gex) result }
    {
        Growth { lex1, gex }
    }
}

// The answer of the check.
use geometry::EntryNumber;

// The answer of the check: the first entry that fails with its refusal, 0 and 0 where all pass, and
// entry 0 with the number where the descriptor is refused. The refusal is its number in the list, so that callers in C and in Rust
// read one and the same.
#[derive(Clone, Copy, Default)]
pub struct Checked {
    pub entry: EntryNumber,
    pub refusal: u32,
}

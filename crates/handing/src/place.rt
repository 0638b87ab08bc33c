// The answer of this crate's calls by value.

// A part of the lent bytes: the refusal, 0 when it is handed out, and where it starts and ends. A part that is handed out may be
// empty, so the refusal is a number beside it.
#[derive(Clone, Copy, Default)]
pub struct PartPlace {
    pub refusal: u32,
    pub start: usize,
    pub end: usize,
}

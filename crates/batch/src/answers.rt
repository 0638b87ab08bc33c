// The answer of a batch.

// The answer of `append_batch`: the refusal, 0 when all entries were accepted, and how many were. C has it as it stands, and both
// are known where an entry is refused.
#[repr(C)]
#[derive(Clone, Copy)]
pub struct Batched {
    pub refusal: u32,
    pub accepted: u64,
}

// Appending and updating through a record of the open file, which is passed by value.
//
// Each call compares the record with the file, for which it validates it once, and then works from the
// numbers and totals of the record. It answers the record as it is afterwards, beside what the call
// without a record answers.
#![tactic(auto)]

mod appending;
mod batching;
mod keeping;
mod updating;

pub use appending::{AppendedThrough, append_through};
pub use batching::{BatchedThrough, append_batch_through};
pub use updating::{UpdatedThrough, update_through};

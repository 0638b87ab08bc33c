// The library as its callers in C have it: each function is a symbol of libclassic.a, as include/classic.h declares it.
//
// Each makes the call of `classic` that has its name, and promises that call's own clauses. No call has a premise. What
// the border assumes of a caller in C, and cannot prove: each pointer leads to as many elements as its count says, aligned
// for their type, and the buffers of one call do not overlap.
#![tactic(auto)]

mod changing;
mod reading;
mod recording;

// The order in which the bytes of an integer stand in a file.

// 0: the least significant byte comes first. 1: the most significant byte does. The rules of a file admit no other
// number, and it is a number and no enum since the record of an open file that C hands in may hold any.
#[repr(C)]
#[derive(Clone, Copy, Default, PartialEq, Eq)]
pub struct ByteOrder(pub u64);

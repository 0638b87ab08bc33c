// What opening an entry of validated numbers finds.
use geometry::Place;
use pieces::Piece;

// The numbers of an entry that breaks no rule.
#[derive(Clone, Copy)]
pub struct Entered {
    pub place: Place,
    pub start: u64,
    pub version: i32,
    pub nsec: u64,
    pub nword: u64,
    pub array: Piece,
}

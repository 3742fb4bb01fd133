//! How a reading call may end.

use sq_text::Place;

#[derive(Clone, Copy, Debug, PartialEq, Eq)]
pub enum InputCode {
    LimitFile,
    Syntax,
    Name,
    Shape,
    Range,
    Short,
    Extra,
}

#[derive(Clone, Copy, Debug, PartialEq, Eq)]
pub enum InputEnd {
    Refused { code: InputCode, place: Place },
    Failed,
    Absent,
}

/// How the reading of all arrays of a file may end, and of a refusal the number of the array that is wanted at its
/// place:
/// behind the last array the last one, and none where none is wanted.
#[derive(Clone, Copy, Debug, PartialEq, Eq)]
pub struct ArraysEnd {
    pub end: InputEnd,
    pub array: Option<usize>,
}

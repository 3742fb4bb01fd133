//! Loops that may overlap their transfers.

use sq_text::Place;

/// Such a loop: the form in which it stands, the one that it calls, and its place.
#[derive(Clone, Copy, Debug)]
pub struct Candidate {
    pub caller: usize,
    pub form: usize,
    pub place: Place,
}

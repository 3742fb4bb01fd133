/// How an expression without operators begins.
#[derive(Clone, Copy, Debug, PartialEq, Eq)]
pub enum Start {
    Number,
    /// A name that takes no index.
    Name,
    /// A name that may take indices.
    Element,
    Brackets,
    Length,
    Least,
    Most,
    /// Not at all.
    Other,
}

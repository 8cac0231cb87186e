// Where a piece of a text stands: from one byte up to another. A type of its own, since a Range of the library is not Copy.
#[derive(Clone, Copy, Debug, PartialEq, Eq)]
pub struct Span {
    pub from: usize,
    pub to: usize,
}

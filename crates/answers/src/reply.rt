// What a decision or a closing answers, beside what it did to the table.

// What was answered, and how many blocks of the table were written.
#[derive(Clone, Copy, Debug, PartialEq, Eq)]
pub struct Counted<T> {
    pub answer: T,
    pub written: usize,
}

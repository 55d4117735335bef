//! Items of the data.

/// What stands next in the data: a value of one of the two types, with the place after its last byte; no item; or bytes that begin none.
#[derive(Clone, Copy, Debug, PartialEq, Eq)]
pub enum Item {
    Number { value: i32, end: usize },
    Truth { value: bool, end: usize },
    End,
    Bad,
}
